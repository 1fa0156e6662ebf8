//! Why an archive is not found whole.
ghost use Rattle.archive_port.specs.declared.checking.CheckError.TheVariants.{Failed};

use crate::faults::StoreFault;

/// Why an archive is not found whole.
#[derive(Debug, Drop)]
pub enum CheckError {
    /// E16: the list and the key of the first message that is not sound, lists by name and then in mailbox order. They are as the
    /// row has them, and need not be UTF-8.
    Damaged { list: Vec<u8>, key: Vec<u8> },
    /// E14 or E15.
    Failed(StoreFault),
}

impl From<StoreFault> for CheckError {
    ghost use Rattle.std.specs.Prelude.{◌≡◌};

    ghost from_gives = { λ fault stop. stop ≡ Failed fault };

    fn from(fault: StoreFault) -> CheckError {
        CheckError::Failed(fault)
    }
}
