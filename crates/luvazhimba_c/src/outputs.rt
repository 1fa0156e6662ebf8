//! What is written into arrays of the caller.
ghost use Rattle.std.specs.Prelude.{◌≡◌, ◌<◌, length, take, OnOk, IfErr};
ghost use Rattle.luvazhimba_c.specs.declared.refusals.Refusal.TheVariants.{NoRoom};

use crate::refusals::Refusal;

/// Copies values to the front of an array.
pub(crate) fn put<T: Copy>(to: &mut [T], values: &[T]) -> Result<(), Refusal>
    ensures ok { OnOk result (take (length values.now) to.new ≡ values.now) }
    ensures err { IfErr result (λ refusal. (refusal ≡ NoRoom) × (length to.old < length values.now)) }
{
    if to.len() < values.len() {
        return Err(Refusal::NoRoom);
    }
    to[..values.len()].copy_from_slice(values);
    Ok(())
}
