//! A threader that notes what it is asked.
use civil_time::Memory;
use std::alloc::Global;
use std::cell::{Cell, RefCell};
use std::sync::ledger::Ledger;
use thread_core::{Entry, Pairs, PlainThreader, Row, Steps, Threader};

/// A threader that notes what it is asked, and hands it on to the plain one.
#[derive(Drop)]
pub struct Noting {
    joins: Cell<usize>,
    rows: Cell<usize>,
    entries: RefCell<Vec<u8>>,
}

/// How often a threader was asked for links, and how often for rows, and of which messages at last.
#[derive(PartialEq, Eq, Drop)]
pub struct Noted {
    /// How often for links.
    pub joins: usize,
    /// How often for rows.
    pub rows: usize,
    /// The messages, as `push_entry` writes them.
    pub entries: Vec<u8>,
}

impl Noting {
    /// A threader that was not asked yet.
    pub fn new(alloc: Global) -> Noting {
        Noting {
            joins: Cell::new(0),
            rows: Cell::new(0),
            entries: RefCell::new(Vec::new(alloc)),
        }
    }

    /// What it was asked.
    pub fn into_noted(self) -> Noted {
        Noted {
            joins: self.joins.get(),
            rows: self.rows.get(),
            entries: self.entries.into_inner(),
        }
    }
}

/// What an entry says: `|`, its id, its references in brackets, its base subject, and `re` for a reply.
fn push_entry(text: &mut Vec<u8>, entry: &Entry) -> Result<(), Memory> {
    text.push(b'|')?;
    if let Some(id) = &entry.id {
        text.extend_from_slice(id.left())?;
        text.push(b' ')?;
    }
    for at in 0..entry.refs.len() {
        let id = entry.refs.get(at);
        text.push(b'<')?;
        text.extend_from_slice(id.left())?;
        text.extend_from_slice(b"> ")?;
    }
    text.extend_from_slice(entry.base.as_slice())?;
    if entry.reply {
        text.extend_from_slice(b" re")?;
    }
    Ok(())
}

fn text_of(alloc: Global, entries: &[Entry]) -> Result<Vec<u8>, Memory> {
    let mut text = Vec::new(alloc);
    for entry in entries {
        push_entry(&mut text, entry)?;
    }
    Ok(text)
}

impl Threader for Noting {
    type Links = Pairs;

    ghost linked = { λ pairs. pairs };

    fn join<L: Ledger>(
        &self,
        alloc: Global,
        entries: &[Entry],
        steps: &mut Steps<L>,
    ) -> Result<Pairs, Memory> {
        self.joins.set(self.joins.get().wrapping_add(1));
        let _before = self.entries.try_replace(text_of(alloc, entries)?);
        PlainThreader.join(alloc, entries, steps)
    }

    fn rows<L: Ledger>(
        &self,
        alloc: Global,
        entries: &[Entry],
        merge: bool,
        links: Pairs,
        steps: &mut Steps<L>,
    ) -> Result<Vec<Row>, Memory> {
        self.rows.set(self.rows.get().wrapping_add(1));
        PlainThreader.rows(alloc, entries, merge, links, steps)
    }
}
