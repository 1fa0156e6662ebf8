//! What clauses see of what holds an archive.

/// What clauses see of what holds an archive; `ArchiveStore` has its calls.
pub trait ArchiveState {
    ghost use Rattle.std.specs.Prelude.{ℕ, Bool, List};
    ghost use Rattle.mbox_items.specs.Division.{Item};
    ghost use Rattle.archive_model.specs.Records.{Archive, Message};
    ghost use Rattle.archive_model.specs.Commands.{Command};

    /// Messages of a list, one at a time.
    type Walk: Drop;

    // The archive that it remembers.
    ghost archive: { Self → Archive };

    // It is open, no change is under way, and what it holds is an archive, whatever is filed of a message.
    ghost is_at_rest: { Self → Type 0 };

    ghost is_open: { Self → Bool };

    // Its disk has returned what was written to it.
    ghost has_clean_disk: { Self → Type 0 };

    // Nothing bounds the steps of a question.
    ghost has_no_step_limit: { Self → Type 0 };

    // How often its disk failed or refused.
    ghost faults: { Self → ℕ };

    // How often memory was refused: in its calls, and as the layers above count it.
    ghost refusals: { Self → ℕ };

    // What a crash may leave of it, of whatever kind that is.
    ghost Left: { Type 0 };

    // A crash at this moment may leave this.
    ghost may_leave: { Self → Left → Type 0 };

    // This was left, and an opening finds this archive in it.
    ghost is_stored: { Archive → Left → Type 0 };

    // What it holds refuses what this command writes, which the machine carries out.
    ghost refuses: { Self → Command → Type 0 };

    // What it holds becomes, by these messages that are added to the list, what refuses this one, which the machine takes in.
    ghost refuses_after: { Self → List ℕ → List Item → Item → Type 0 };

    // A walk that gives these messages of the list next, one after the other.
    ghost gives: { Self → Self.Walk → List ℕ → List Message → Type 0 };

    // How many messages a walk has not given yet.
    ghost remaining_count: { Self.Walk → ℕ };
}
