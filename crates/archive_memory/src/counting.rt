//! How often memory was refused.
ghost use Rattle.std.specs.Prelude.{◌≡◌, ◌+◌, Ok, MatchResult, IsErr};
ghost use Rattle.archive_port.specs.declared.faults.StoreFault.TheVariants.{Memory};

use archive_port::{MemoryRefusal, StoreFault};
use byte_device::Transcript;
use std::marker::Model;

/// How often memory was refused, in the calls of an archive and as the layers above count it. Only clauses read it: it takes no
/// room, and its calls do nothing when they run.
#[derive(Drop)]
pub(crate) struct RefusalCounter {
    told: Transcript,
}

impl Model for RefusalCounter {
    ghost use Rattle.std.specs.Prelude.{ℕ, length};

    ghost Value = { ℕ };

    ghost view = { λ counter. length counter.told.bytes };
}

impl RefusalCounter {
    /// None yet.
    pub(crate) fn new() -> RefusalCounter
        ensures { result ≡ 0 }
    {
        RefusalCounter {
            told: Transcript::new(),
        }
    }

    /// One more: a call refused memory.
    pub(crate) fn increment(&mut self, _why: &MemoryRefusal)
        ensures { self.new ≡ self.old + 1 }
    {
        self.told.note(&[0]);
    }

    /// Hands an answer on. Where memory was refused it is E14, and one more.
    pub(crate) fn pass<T>(&mut self, answer: Result<T, MemoryRefusal>) -> Result<T, StoreFault>
        ensures { MatchResult result (λ found. (answer ≡ Ok found) × (self.new ≡ self.old))
            (λ fault. IsErr answer × (fault ≡ Memory) × (self.new ≡ self.old + 1)) }
    {
        match answer {
            Ok(found) => Ok(found),
            Err(refused) => {
                self.increment(&refused);
                Err(refused.into())
            }
        }
    }
}
