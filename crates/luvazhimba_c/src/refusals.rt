//! Why a call refuses.
ghost use Rattle.std.specs.Prelude.{◌≡◌, ◌<◌, ◌↔◌, IsTrue};
ghost use Rattle.luvazhimba_c.specs.Numbers.{refusal_number, IsArrayTooLong};

use civil_time::Memory;

/// What a call answers that did what its name says.
pub(crate) const DONE: u8 = 0;

/// The most elements that an array has which a call reads: a length past it is a mistake of the caller.
const MOST: usize = 1 << 40;

/// Whether an array has more elements than that.
pub(crate) fn is_too_long<T>(array: &[T]) -> bool
    ensures { IsTrue result ↔ IsArrayTooLong array.now }
{
    array.len() > MOST
}

/// Why a call refuses.
#[derive(Debug, Clone, Copy, PartialEq, Eq, Drop)]
pub(crate) enum Refusal {
    /// An array that the answer goes to has no room for it.
    NoRoom,
    /// A growth of memory was refused.
    Memory,
    /// An arrival lies outside the years 1900 to 9998.
    Arrival,
    /// A message stands outside the bytes.
    Place,
    /// The first line that is not empty is no separator line.
    Mbox,
    /// An array that is read has more elements than `MOST`.
    TooLong,
}

impl From<Memory> for Refusal {
    ghost use Rattle.std.specs.Prelude.{◌≡◌};
    ghost use Rattle.luvazhimba_c.specs.declared.refusals.Refusal.TheVariants as refusals;

    ghost from_gives = { λ _ refusal. refusal ≡ refusals.Memory };

    fn from(_refused: Memory) -> Refusal {
        Refusal::Memory
    }
}

impl Refusal {
    /// Its number, as C has it.
    pub(crate) fn number(self) -> u8
        ensures value { result ≡ refusal_number self }
        ensures some { 0 < result }
    {
        match self {
            Refusal::NoRoom => 1,
            Refusal::Memory => 2,
            Refusal::Arrival => 3,
            Refusal::Place => 4,
            Refusal::Mbox => 5,
            Refusal::TooLong => 6,
        }
    }
}
