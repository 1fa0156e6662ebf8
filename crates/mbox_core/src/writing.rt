//! Writing messages (RFC 4155).
ghost use Rattle.std.specs.Prelude.{◌≡◌, ◌≤◌, ◌<◌, ◌+◌, ◌-◌, ◌^◌, ◌++◌, ◌∷◌, [], length, min, take, drop, OnOk, IfErr, OnErr, codes};
ghost use Rattle.mbox_items.specs.Division.{whole};
ghost use Rattle.mbox_items.specs.Written.{AppendsPrefixOfText, separator_line_text, two_token_separator_line, written_item, with_lf};

use crate::heading::time_line;
use byte_device::{Sink, WriteFault, write_bytes, write_two_slices};
use mbox_items::{Envelope, Item, Sender};

/// The longest sender whose separator line is put together before it is written.
const SHORT: usize = 225;

/// Puts bytes into a line, from `at` on.
fn copy_at(line: &mut [u8; 256], at: usize, bytes: &[u8])
    requires { at + length bytes.now ≤ 256 }
    ensures { line.new ≡ take at line.old ++ (bytes.now ++ drop (at + length bytes.now) line.old) }
{
    line[at..at + bytes.len()].copy_from_slice(bytes);
}

/// A separator line with a short sender, at the front of the result.
fn short_line(sender: &[u8], end: [u8; 26]) -> [u8; 256]
    requires { length sender.now ≤ 225 }
    ensures { take (31 + length sender.now) result ≡ codes "From " ++ (sender.now ++ end) }
{
    let mut line = [0; 256];
    copy_at(&mut line, 0, b"From ");
    copy_at(&mut line, 5, sender);
    copy_at(&mut line, 5 + sender.len(), &end);
    line
}

/// What follows a text: an LF, and one before it where the text does not end in one.
fn tail_of(item: &Item) -> &'static [u8]
    ensures value { item.now.text ++ result.now ≡ with_lf (whole item.now.text) }
    ensures short { length result.now ≤ 2 }
{
    if item.complete { b"\n" } else { b"\n\n" }
}

/// Writes a separator line, piece by piece.
fn write_long<W: Sink>(out: &mut W, sender: &[u8], end: [u8; 26]) -> Result<(), WriteFault>
    ensures ok { OnOk result (W.told out.new ≡ W.told out.old ++ (codes "From " ++ (sender.now ++ end))) }
    ensures fault { IfErr result (λ e. AppendsPrefixOfText (W.told out.old) (W.told out.new) (codes "From " ++ (sender.now ++ end)) e.written) }
    ensures quiet { OnOk result (W.failures out.new ≡ W.failures out.old) }
    ensures cause { OnErr result (W.failures out.old < W.failures out.new) }
{
    write_bytes(out, b"From ")?;
    match write_two_slices(out, sender, &end) {
        Ok(()) => Ok(()),
        Err(fault) => Err(WriteFault {
            written: 5 + fault.written,
        }),
    }
}

/// Writes a separator line. One with a short sender, as nearly all are, goes out by one write.
fn write_line<W: Sink>(out: &mut W, sender: &[u8], end: [u8; 26]) -> Result<(), WriteFault>
    ensures ok { OnOk result (W.told out.new ≡ W.told out.old ++ (codes "From " ++ (sender.now ++ end))) }
    ensures fault { IfErr result (λ e. AppendsPrefixOfText (W.told out.old) (W.told out.new) (codes "From " ++ (sender.now ++ end)) e.written) }
    ensures quiet { OnOk result (W.failures out.new ≡ W.failures out.old) }
    ensures cause { OnErr result (W.failures out.old < W.failures out.new) }
{
    if sender.len() > SHORT {
        return write_long(out, sender, end);
    }
    let line = short_line(sender, end);
    write_bytes(out, &line[..31 + sender.len()])
}

/// Writes a separator line whose sender is two tokens, piece by piece.
fn write_at_line<W: Sink>(
    out: &mut W,
    left: &[u8],
    right: &[u8],
    end: [u8; 26],
) -> Result<(), WriteFault>
    ensures ok { OnOk result (W.told out.new ≡ W.told out.old ++ two_token_separator_line left.now right.now end) }
    ensures fault { IfErr result (λ e. length (W.told out.new) < 2 ^ 64
        → AppendsPrefixOfText (W.told out.old) (W.told out.new) (two_token_separator_line left.now right.now end) e.written) }
    ensures quiet { OnOk result (W.failures out.new ≡ W.failures out.old) }
    ensures cause { OnErr result (W.failures out.old < W.failures out.new) }
{
    write_two_slices(out, b"From ", left)?;
    let before_at = 5 + left.len() as u64;
    if let Err(fault) = write_two_slices(out, b" at ", right) {
        return Err(WriteFault {
            written: before_at.saturating_add(fault.written),
        });
    }
    let before_end = before_at.saturating_add(4 + right.len() as u64);
    if let Err(fault) = write_bytes(out, &end) {
        return Err(WriteFault {
            written: before_end.saturating_add(fault.written),
        });
    }
    Ok(())
}

/// Writes the separator line of an envelope.
fn write_heading<W: Sink>(out: &mut W, envelope: &Envelope) -> Result<(), WriteFault>
    ensures ok { OnOk result (W.told out.new ≡ W.told out.old ++ with_lf (separator_line_text envelope.now)) }
    ensures fault { IfErr result (λ e. length (W.told out.new) < 2 ^ 64
        → AppendsPrefixOfText (W.told out.old) (W.told out.new) (with_lf (separator_line_text envelope.now)) e.written) }
    ensures quiet { OnOk result (W.failures out.new ≡ W.failures out.old) }
    ensures cause { OnErr result (W.failures out.old < W.failures out.new) }
{
    let end = time_line(envelope.arrival);
    match envelope.sender {
        Sender::One(token) => write_line(out, token, end),
        Sender::At(left, right) => write_at_line(out, left, right, end),
    }
}

/// The length of a separator line, with its LF, whose sender is one token.
fn line_len(token: &[u8]) -> u64
    ensures { result ≡ 31 + length token.now }
{
    31 + token.len() as u64
}

/// The length of a separator line, with its LF, whose sender is two tokens: 2^64 - 1 where it is more.
fn at_line_len(left: &[u8], right: &[u8]) -> u64
    ensures { result ≡ min (35 + length left.now + length right.now) (2 ^ 64 - 1) }
{
    line_len(left).saturating_add(4 + right.len() as u64)
}

/// The length of the separator line of an envelope, with its LF: 2^64 - 1 where it is more.
fn heading_len(envelope: &Envelope) -> u64
    ensures { result ≡ min (length (with_lf (separator_line_text envelope.now))) (2 ^ 64 - 1) }
{
    match envelope.sender {
        Sender::One(token) => line_len(token),
        Sender::At(left, right) => at_line_len(left, right),
    }
}

/// How many bytes `write_item` writes of a message: 2^64 - 1 where it is more.
pub fn written_len(item: &Item) -> u64
    ensures { result ≡ min (length (written_item item.now)) (2 ^ 64 - 1) }
{
    let rest = item.text.len() as u64 + tail_of(item).len() as u64;
    heading_len(&item.envelope).saturating_add(rest)
}

/// Writes a message: its separator line, with the time in UTC, its whole text, and an empty line. Where a write fails or
/// takes none, exactly the first `written` bytes of these went out, if the writer told fewer than 2^64 bytes.
pub fn write_item<W: Sink>(out: &mut W, item: &Item) -> Result<(), WriteFault>
    ensures ok { OnOk result (W.told out.new ≡ W.told out.old ++ written_item item.now) }
    ensures fault { IfErr result (λ e. length (W.told out.new) < 2 ^ 64
        → AppendsPrefixOfText (W.told out.old) (W.told out.new) (written_item item.now) e.written) }
    ensures quiet { OnOk result (W.failures out.new ≡ W.failures out.old) }
    ensures cause { OnErr result (W.failures out.old < W.failures out.new) }
{
    if let Err(fault) = write_heading(out, &item.envelope) {
        return Err(fault);
    }
    if let Err(fault) = write_two_slices(out, item.text, tail_of(item)) {
        return Err(WriteFault {
            written: heading_len(&item.envelope).saturating_add(fault.written),
        });
    }
    Ok(())
}
