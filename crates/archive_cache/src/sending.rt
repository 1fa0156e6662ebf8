//! The messages of a list by the keys of lines, written as an mbox, message by message.
ghost use Rattle.std.specs.Prelude.{◌∷◌, [], ◌<◌, ◌^◌, IfErr, OnOk};
ghost use Rattle.archive_desk.specs.Ending.{ReportsWriterFailure};
ghost use Rattle.archive_desk.specs.Walking.{AddsToByteCount, IsRowsStop, IsMemoryOrDatabaseFault, IsWalkStop};
ghost use Rattle.archive_cache.specs.Sending.{EndsMboxOfLines, LooksUpMessage, IsTrueOfOldArchive, WritesMboxOfLines, WritesMboxAfterHead};

use archive_desk::{DeskError, ExportStop};
use archive_port::{ArchiveStore, Message};
use archive_results::Line;
use mbox_core::device::{Sink, write_bytes};
use mbox_core::{write_item, written_len};

/// Writes these bytes, and then the messages of a list that have the keys of these lines, as an mbox (RFC 4155): how many bytes that is in
/// all. It asks the store for no other message, and holds one at a time; a line whose message the list does not hold is passed by. G6
/// where the writer failed, G4 where the store has no memory or fails.
pub fn export_lines<S: ArchiveStore, W: Sink>(
    store: &mut S,
    list: &str,
    lines: &[Line],
    head: &[u8],
    out: &mut W,
) -> Result<u64, ExportStop>
    ensures written { IsTrueOfOldArchive S.ArchiveState store.old store.new (λ a. WritesMboxAfterHead S.ArchiveState store.new a list.now lines.now head.now
        (W.told out.old) (W.told out.new) result) }
    ensures writer { ReportsWriterFailure (W.failures out.old) (W.failures out.new) result
        (λ stop. IsWalkStop (W.told out.old) (W.told out.new) (W.failures out.old)
        (W.failures out.new) stop.written stop.fault) }
    ensures ends { EndsMboxOfLines S.ArchiveState store.old store.new list.now (λ stop. stop.fault) result }
{
    if let Err(fault) = write_bytes(out, head) {
        return Err(ExportStop {
            written: fault.written,
            fault: DeskError::Write,
        });
    }
    let mut count = head.len() as u64;
    match write_lines(store, list, lines, out, &mut count) {
        Ok(()) => Ok(count),
        Err(fault) => Err(ExportStop {
            written: count,
            fault,
        }),
    }
}

/// Writes the messages of some lines, and counts their bytes.
fn write_lines<S: ArchiveStore, W: Sink>(
    store: &mut S,
    list: &str,
    lines: &[Line],
    out: &mut W,
    count: &mut u64,
) -> Result<(), DeskError>
    requires { count.old < 2 ^ 64 }
    ensures written { IsTrueOfOldArchive S.ArchiveState store.old store.new (λ a. WritesMboxOfLines S.ArchiveState store.new a list.now lines.now
        (W.told out.old) (W.told out.new) count.old count.new result) }
    ensures writer { ReportsWriterFailure (W.failures out.old) (W.failures out.new) result
        (λ fault. IsRowsStop (W.told out.old) (W.told out.new) (W.failures out.old)
        (W.failures out.new) count.old count.new fault) }
    ensures ends { EndsMboxOfLines S.ArchiveState store.old store.new list.now (λ fault. fault) result }
{
    for line in lines {
        match write_line(store, list, line, out, count) {
            Ok(()) => {}
            Err(fault) => return Err(fault),
        }
    }
    Ok(())
}

/// Writes the message of a line, if the list holds it, and counts its bytes.
fn write_line<S: ArchiveStore, W: Sink>(
    store: &mut S,
    list: &str,
    line: &Line,
    out: &mut W,
    count: &mut u64,
) -> Result<(), DeskError>
    requires { count.old < 2 ^ 64 }
    ensures written { IsTrueOfOldArchive S.ArchiveState store.old store.new (λ a. WritesMboxOfLines S.ArchiveState store.new a list.now (line.now ∷ [])
        (W.told out.old) (W.told out.new) count.old count.new result) }
    ensures more { OnOk result (AddsToByteCount (W.told out.old) (W.told out.new) count.old count.new) }
    ensures writer { ReportsWriterFailure (W.failures out.old) (W.failures out.new) result
        (λ fault. IsRowsStop (W.told out.old) (W.told out.new) (W.failures out.old)
        (W.failures out.new) count.old count.new fault) }
    ensures ends { EndsMboxOfLines S.ArchiveState store.old store.new list.now (λ fault. fault) result }
{
    let message = match find_line(store, list, line) {
        Ok(Some(message)) => message,
        Ok(None) => return Ok(()),
        Err(fault) => return Err(fault),
    };
    let item = message.item.as_item();
    match write_item(out, &item) {
        Ok(()) => {
            *count = count.saturating_add(written_len(&item));
            Ok(())
        }
        Err(fault) => {
            *count = count.saturating_add(fault.written);
            Err(DeskError::Write)
        }
    }
}

/// The message of a line. `None` where the list does not hold it.
fn find_line<S: ArchiveStore>(
    store: &mut S,
    list: &str,
    line: &Line,
) -> Result<Option<Message>, DeskError>
    ensures found { IsTrueOfOldArchive S.ArchiveState store.old store.new (λ a. LooksUpMessage S.ArchiveState store.new a list.now line.now.key result) }
    ensures fault { IfErr result IsMemoryOrDatabaseFault }
    ensures ends { EndsMboxOfLines S.ArchiveState store.old store.new list.now (λ fault. fault) result }
{
    match store.find(list, &line.key) {
        Ok(found) => Ok(found),
        Err(fault) => Err(DeskError::from(fault)),
    }
}
