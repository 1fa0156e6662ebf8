//! What is kept of messages that were withheld by their marks, so that the store is not asked again to withhold them again.
ghost use Rattle.std.specs.Prelude.{◌≡◌, ◌≤◌, ◌-◌, drop, find, length, option_map};
ghost use Rattle.archive_cache.specs.Views.{CachesWithheldMessage, WithheldMessage, is_withheld_message};

use archive_model::Key;
use archive_results::MessageFacts;
use std::alloc::Global;
use std::marker::Model;

/// What a policy weighs of a message of a list that was withheld, where it is not the reader's own.
#[derive(Drop)]
pub(crate) struct KeptMarks {
    list: String,
    key: Key,
    marks: MessageFacts,
}

impl Model for KeptMarks {
    ghost use Rattle.std.specs.Prelude.{string_bytes};
    ghost use Rattle.archive_cache.specs.Views.{WithheldMessage};

    ghost Value = { WithheldMessage };

    ghost view = { λ w. record { list = string_bytes w.list; key = w.key; marks = w.marks } };
}

/// How many messages have their marks kept at most.
const MOST_MARKS: usize = 256;

fn is_of(kept: &KeptMarks, list: &str, key: &Key) -> bool
    ensures { result ≡ is_withheld_message list.now key.now kept.now }
{
    kept.key.as_str() == key.as_str() && kept.list.as_str() == list
}

/// The marks that are cached of the message of a list and key.
pub(crate) fn find_marks(kept: &[KeptMarks], list: &str, key: &Key) -> Option<MessageFacts>
    ensures { result ≡ option_map (λ (w : WithheldMessage). w.marks)
        (find (is_withheld_message list.now key.now) kept.now) }
{
    kept.iter()
        .find(|it| is_of(it, list, key))
        .map(|it| it.marks)
}

/// Lets the oldest go where there is no room for one more.
fn make_room(kept: &mut Vec<KeptMarks>)
    ensures { kept.new.items ≡ drop (length kept.old.items - 255) kept.old.items }
{
    let over = kept.len().saturating_sub(MOST_MARKS - 1);
    kept.drain(..over);
}

/// Caches the marks of one message more, and lets the oldest go for it. If memory is refused, it caches none.
pub(crate) fn put_marks(
    kept: &mut Vec<KeptMarks>,
    alloc: Global,
    list: &str,
    key: &Key,
    marks: MessageFacts,
)
    ensures kept { CachesWithheldMessage kept.old.items kept.new.items
        (record { list = list.now; key = key.now; marks = marks }) }
    ensures bounded { length kept.old.items ≤ 256 → length kept.new.items ≤ 256 }
{
    let Ok(list) = String::from_str(alloc, list) else {
        return;
    };
    make_room(kept);
    let key = *key;
    if let Err(_) = kept.push(KeptMarks { list, key, marks }) {}
}
