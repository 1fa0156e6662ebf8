//! The databases of archives, by their names.
use crate::faults::StoreFault;
use std::alloc::Global;

/// Whoever has databases, each of which is opened as an archive of the type `T`.
pub trait Databases<T> {
    ghost use Rattle.std.specs.Prelude.{◌≡◌, ℕ, List, Result, None, IfErr, ⊤};
    ghost use Rattle.archive_model.specs.Records.{Archive};
    ghost use Rattle.archive_port.specs.Replies.{refusal_of_fault};
    ghost use Rattle.archive_port.specs.declared.faults.StoreFault.{StoreFault};

    // The database of this name holds this archive, while it is not open. What a device says of it meets the laws of Remembering.antt.
    ghost holds: { Self → List ℕ → Archive → Type 0 } = { λ _ _ _. ⊥ };

    // Holds of the databases before one is opened and after, of its name, and of what is given.
    ghost opens: { Self → Self → List ℕ → Result T StoreFault → Type 0 } = { λ _ _ _ _. ⊤ };

    // Holds of the databases before one is closed and after, and of what is taken back.
    ghost closes: { Self → Self → T → Type 0 } = { λ _ _ _. ⊤ };

    /// The archive in the database of this name, whose tables are made where it is empty or not there. E14: there was no
    /// memory. E15: it cannot be opened, or is no archive.
    fn open(&mut self, alloc: Global, name: &str) -> Result<T, StoreFault>
        ensures opened { opens self.old self.new name.now result }
        ensures fault { IfErr result (λ fault. refusal_of_fault fault ≡ None) };

    /// Closes a database that was opened.
    fn close(&mut self, store: T)
        ensures { closes self.old self.new store };
}
