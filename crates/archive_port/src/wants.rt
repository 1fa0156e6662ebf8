//! A refusal of memory.

use std::alloc::{AllocError, AllocFailed};

/// A refusal of memory that a call gave. It is made of what that call answered, and of nothing else: whoever counts a want of memory
/// holds one.
#[derive(Debug, Drop)]
pub struct MemoryRefusal(());

impl From<AllocError> for MemoryRefusal {
    fn from(_refused: AllocError) -> MemoryRefusal {
        MemoryRefusal(())
    }
}

impl<T: Drop> From<AllocFailed<T>> for MemoryRefusal {
    fn from(_refused: AllocFailed<T>) -> MemoryRefusal {
        MemoryRefusal(())
    }
}

impl From<civil_time::Memory> for MemoryRefusal {
    fn from(_refused: civil_time::Memory) -> MemoryRefusal {
        MemoryRefusal(())
    }
}
