//! The view as an mbox, written message by message.
ghost use Rattle.std.specs.Prelude.{◌≡◌, ◌∷◌, [], ◌<◌, ◌^◌, ◌-◌, ◌++◌, min, length, OnOk, IfOk, IfErr};
ghost use Rattle.mbox_core.specs.Written.{AppendsPrefixOfText};
ghost use Rattle.archive_model.specs.Messages.{archived_message};
ghost use Rattle.archive_port.specs.Crashes.{WritesNothing};
ghost use Rattle.archive_port.specs.Walking.{walk_over_store};
ghost use Rattle.archive_desk.specs.Ending.{EndsExport, EndsWalk, LeavesPartialExport, ReportsWriterFailure};
ghost use Rattle.archive_desk.specs.Exporting.{ExportsMbox, IsExportStop, exported_text, shown_mbox_text};
ghost use Rattle.archive_desk.specs.Walking.{IsRowsStop, IsMessageWriteStop, IsWalkStop, WritesRows, WritesWalk, partial_message_bytes};

use crate::faults::DeskError;
use crate::passing::pass_withheld;
use crate::viewing::resolve_reader;
use archive_port::{ArchiveStore, Message, Selection};
use archive_results::{Ask, ReaderFacts, is_shown};
use mail_core::Memory;
use mbox_core::device::{Sink, write_bytes};
use mbox_core::{write_item, written_len};
use std::alloc::Global;

/// Where an export stopped: exactly the first `written` bytes of the text went out, those of the head among them.
#[derive(Clone, Copy, Debug, PartialEq, Eq, Drop)]
pub struct ExportStop {
    /// How many bytes of the text went out.
    pub written: u64,
    /// Why no more did.
    pub fault: DeskError,
}

/// Writes the view as an mbox (RFC 4155): how many bytes that is. It holds one message at a time. G1 where there is no
/// such list, G2 where there is no such person, and nothing was written; G6 where the writer failed, G5 where no memory is left,
/// G4 where the store has none or fails, before the first byte or at a message.
pub fn export<S: ArchiveStore, W: Sink>(
    store: &mut S,
    alloc: Global,
    ask: &Ask<'_>,
    out: &mut W,
) -> Result<u64, ExportStop>
    ensures exported { ExportsMbox S.ArchiveState store.old store.new result ask.now (W.told out.old)
        (W.told out.new)
        (λ a. exported_text a ask.now) }
    ensures stopped { LeavesPartialExport S.ArchiveState store.old store.new ask.now (W.told out.old)
        (W.told out.new)
        (λ a. exported_text a ask.now) result }
    ensures writer { ReportsWriterFailure (W.failures out.old) (W.failures out.new) result
        (λ stop. IsExportStop (W.told out.old) (W.told out.new) (W.failures out.old)
        (W.failures out.new) stop.written stop.fault) }
    ensures ends { EndsExport S.ArchiveState store.old store.new ask.now result }
    ensures writes_nothing { WritesNothing S.ArchiveState store.old store.new }
{
    export_after(store, alloc, ask, b"", out)
}

/// Writes these bytes, and then the view as an mbox: how many bytes that is in all. The list and the reader's standing
/// are asked, and the walk begins, before the first byte. The refusals are those of `export`.
pub fn export_after<S: ArchiveStore, W: Sink>(
    store: &mut S,
    alloc: Global,
    ask: &Ask<'_>,
    head: &[u8],
    out: &mut W,
) -> Result<u64, ExportStop>
    ensures exported { ExportsMbox S.ArchiveState store.old store.new result ask.now (W.told out.old)
        (W.told out.new)
        (λ a. head.now ++ exported_text a ask.now) }
    ensures stopped { LeavesPartialExport S.ArchiveState store.old store.new ask.now (W.told out.old)
        (W.told out.new)
        (λ a. head.now ++ exported_text a ask.now) result }
    ensures writer { ReportsWriterFailure (W.failures out.old) (W.failures out.new) result
        (λ stop. IsExportStop (W.told out.old) (W.told out.new) (W.failures out.old)
        (W.failures out.new) stop.written stop.fault) }
    ensures ends { EndsExport S.ArchiveState store.old store.new ask.now result }
    ensures writes_nothing { WritesNothing S.ArchiveState store.old store.new }
{
    let reader = match resolve_reader(store, ask) {
        Ok(reader) => reader,
        Err(fault) => return Err(ExportStop { written: 0, fault }),
    };
    match store.each_selected(alloc, ask.list, &Selection::Every) {
        Ok(mut walk) => write_walk(store, alloc, ask, &reader, head, &mut walk, out),
        Err(fault) => Err(ExportStop {
            written: 0,
            fault: DeskError::from(fault),
        }),
    }
}

/// Writes these bytes, and then the messages of a walk, as far as the policy shows them: how many bytes that is in all.
fn write_walk<S: ArchiveStore, W: Sink>(
    store: &mut S,
    alloc: Global,
    ask: &Ask<'_>,
    reader: &ReaderFacts,
    head: &[u8],
    walk: &mut S::Walk,
    out: &mut W,
) -> Result<u64, ExportStop>
    ensures written { WritesWalk S.ArchiveState (walk_over_store store.old walk.old) (walk_over_store store.new walk.new) ask.now reader.now head.now
        (W.told out.old) (W.told out.new) result }
    ensures writer { ReportsWriterFailure (W.failures out.old) (W.failures out.new) result
        (λ stop. IsWalkStop (W.told out.old) (W.told out.new) (W.failures out.old)
        (W.failures out.new) stop.written stop.fault) }
    ensures ends { EndsWalk S.ArchiveState (walk_over_store store.old walk.old) (walk_over_store store.new walk.new) ask.now (λ stop. stop.fault) result }
    ensures writes_nothing { WritesNothing S.ArchiveState store.old store.new }
{
    if let Err(fault) = write_bytes(out, head) {
        return Err(ExportStop {
            written: fault.written,
            fault: DeskError::Write,
        });
    }
    let mut count = head.len() as u64;
    match write_rows(store, alloc, ask, reader, walk, out, &mut count) {
        Ok(()) => Ok(count),
        Err(fault) => Err(ExportStop {
            written: count,
            fault,
        }),
    }
}

/// Writes the messages that a walk has not given yet, as far as the policy shows them, and counts their bytes.
fn write_rows<S: ArchiveStore, W: Sink>(
    store: &mut S,
    alloc: Global,
    ask: &Ask<'_>,
    reader: &ReaderFacts,
    walk: &mut S::Walk,
    out: &mut W,
    count: &mut u64,
) -> Result<(), DeskError>
    requires { count.old < 2 ^ 64 }
    ensures written { WritesRows S.ArchiveState (walk_over_store store.old walk.old) (walk_over_store store.new walk.new) ask.now reader.now (W.told out.old)
        (W.told out.new)
        count.old count.new result }
    ensures writer { ReportsWriterFailure (W.failures out.old) (W.failures out.new) result
        (λ fault. IsRowsStop (W.told out.old) (W.told out.new) (W.failures out.old)
        (W.failures out.new) count.old count.new fault) }
    ensures ends { EndsWalk S.ArchiveState (walk_over_store store.old walk.old) (walk_over_store store.new walk.new) ask.now (λ fault. fault) result }
    ensures writes_nothing { WritesNothing S.ArchiveState store.old store.new }
{
    loop {
        pass_withheld(store, ask, reader, walk)?;
        let Some(message) = store.next(walk)? else {
            return Ok(());
        };
        match write_shown(alloc, ask, reader, &message, out) {
            Ok(more) => *count = count.saturating_add(more),
            Err(Unshown::Write(written)) => {
                *count = count.saturating_add(written);
                return Err(DeskError::Write);
            }
            Err(Unshown::Refused(refused)) => {
                store.count_refusal(refused.into());
                return Err(DeskError::Memory);
            }
        }
    }
}

/// Why a message is not written.
enum Unshown {
    /// The writer failed behind so many of its bytes.
    Write(u64),
    /// Memory for its verdict was refused, and no byte was written.
    Refused(Memory),
}

/// Writes a message if the policy shows it: how many bytes that is.
fn write_shown<W: Sink>(
    alloc: Global,
    ask: &Ask<'_>,
    reader: &ReaderFacts,
    message: &Message,
    out: &mut W,
) -> Result<u64, Unshown>
    ensures ok { OnOk result (W.told out.new
        ≡ W.told out.old ++ shown_mbox_text ask.now reader.now
        (archived_message ask.now.list message.now ∷ [])) }
    ensures count { IfOk result (λ count.
        count ≡ min (length (shown_mbox_text ask.now reader.now
        (archived_message ask.now.list message.now ∷ []))) (2 ^ 64 - 1)) }
    ensures part { IfErr result (λ stop. length (W.told out.new) < 2 ^ 64
        → AppendsPrefixOfText (W.told out.old) (W.told out.new)
        (shown_mbox_text ask.now reader.now (archived_message ask.now.list message.now ∷ []))
        (partial_message_bytes stop)) }
    ensures quiet { OnOk result (W.failures out.new ≡ W.failures out.old) }
    ensures cause { IfErr result (λ stop. IsMessageWriteStop (W.told out.old) (W.told out.new)
        (W.failures out.old) (W.failures out.new) stop) }
{
    match is_shown(alloc, ask, reader, message) {
        Ok(true) => {}
        Ok(false) => return Ok(0),
        Err(refused) => return Err(Unshown::Refused(refused)),
    }
    let item = message.item.as_item();
    match write_item(out, &item) {
        Ok(()) => Ok(written_len(&item)),
        Err(fault) => Err(Unshown::Write(fault.written)),
    }
}
