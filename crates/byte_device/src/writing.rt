//! Writing a whole text out.
ghost use Rattle.std.specs.Prelude.{◌≡◌, ◌≤◌, ◌<◌, ◌+◌, ◌^◌, ◌++◌, length, take, OnOk, IfErr, OnErr};

use crate::Sink;

/// A writer failed, and this many bytes of what was to be written went out.
#[derive(Debug, Clone, Copy, PartialEq, Eq, Drop)]
pub struct WriteFault {
    /// How many bytes went out.
    pub written: u64,
}

/// Writes all bytes, in as many writes as it takes. Where a write fails or takes none, exactly the first
/// `written` bytes went out.
pub fn write_bytes<W: Sink>(out: &mut W, bytes: &[u8]) -> Result<(), WriteFault>
    ensures ok { OnOk result (W.told out.new ≡ W.told out.old ++ bytes.now) }
    ensures fault { IfErr result (λ e. (e.written ≤ length bytes.now)
        × (W.told out.new ≡ W.told out.old ++ take e.written bytes.now)) }
    ensures quiet { OnOk result (W.failures out.new ≡ W.failures out.old) }
    ensures cause { OnErr result (W.failures out.old < W.failures out.new) }
{
    let mut written = 0;
    while written < bytes.len() {
        let stopped = WriteFault {
            written: written as u64,
        };
        match out.write(&bytes[written..]) {
            Ok(0) => return Err(stopped),
            Ok(count) => written += count,
            Err(_) => return Err(stopped),
        }
    }
    Ok(())
}

/// Writes two pieces, one after the other: `written` counts over both.
pub fn write_two_slices<W: Sink>(out: &mut W, first: &[u8], second: &[u8]) -> Result<(), WriteFault>
    requires { length first.now + length second.now < 2 ^ 64 }
    ensures ok { OnOk result (W.told out.new ≡ W.told out.old ++ (first.now ++ second.now)) }
    ensures fault { IfErr result (λ e. (e.written ≤ length (first.now ++ second.now))
        × (W.told out.new ≡ W.told out.old ++ take e.written (first.now ++ second.now))) }
    ensures quiet { OnOk result (W.failures out.new ≡ W.failures out.old) }
    ensures cause { OnErr result (W.failures out.old < W.failures out.new) }
{
    write_bytes(out, first)?;
    write_bytes(out, second).map_err(|fault| WriteFault {
        written: first.len() as u64 + fault.written,
    })
}
