//! A law of imports that are read piece by piece: its contract is a law over definitions, and no call does anything.
ghost use Rattle.std.specs.Prelude.{◌≡◌, ◌++◌, [], ℕ, List};
ghost use Rattle.archive_model.specs.Records.{Archive};
ghost use Rattle.archive_desk.specs.Importing.{IsImported};
ghost use Rattle.archive_desk.specs.declared.importing.Report.{Report};
ghost use Rattle.archive_import.specs.Streaming.{HasAddedReadAtLeast};

/// What is read again is known. Where so many first messages of what was read were added and no other, as a stop of the machine
/// leaves it, the whole text, of which that was the beginning, ends with the archive that an import of it ends with which was
/// not stopped.
pub fn messages_read_again_are_known()
    ensures { (list text more : List ℕ) (ends done : ℕ) (a b c d : Archive) (report whole : Report)
        → (ends ≡ 1 → more ≡ []) → HasAddedReadAtLeast list text ends done a b
        → IsImported list (text ++ more) b c report → IsImported list (text ++ more) a d whole
        → c ≡ d }
{}
