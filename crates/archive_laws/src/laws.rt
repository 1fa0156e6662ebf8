//! Laws of what a reader can learn: each contract is a law over the definitions of `specs/` alone, and no call does anything.
ghost use Rattle.std.specs.Prelude.{List};
ghost use Rattle.std.specs.List.{All};
ghost use Rattle.archive_model.specs.Commands.{Command};
ghost use Rattle.archive_model.specs.Records.{Archive};
ghost use Rattle.archive_model.specs.Runs.{run};
ghost use Rattle.archive_model.specs.Sound.{AddsWritableItem};
ghost use Rattle.archive_tables.specs.Making.{empty_archive};
ghost use Rattle.archive_laws.specs.Seen.{RepliesDependOnVisibleOnly};
ghost use Rattle.archive_laws.specs.Telling.{IsWellFormedArchive, RepliesRevealAllVisible};

use archive_model::laws::{
    commands_keep_soundness, names_and_tokens_stay_valid, names_stay_unique,
};
use thread_core::laws::each_message_is_in_one_row;

/// The reply to a request is a function of what its reader sees of the archive. Nothing else of an archive shows in any reply.
#[tactic(auto, using(crate::proofs::SeenLemmas::of_what_is_seen))]
pub fn replies_depend_on_visible_only()
    ensures { RepliesDependOnVisibleOnly }
{}

/// All that a reader sees can be asked for: two archives in order answer every request by one token alike exactly if the reader with this
/// token sees the same of both (`exactly`). The empty archive is in order (`empty`), and one in order stays so after any commands, if what
/// they add can be written (`commands`).
pub fn replies_reveal_all_visible()
    ensures exactly { RepliesRevealAllVisible }
    ensures empty { IsWellFormedArchive empty_archive }
    ensures commands { (archive : Archive) (commands : List Command) → All AddsWritableItem commands → IsWellFormedArchive archive → IsWellFormedArchive (run archive commands).archive }
{
    each_message_is_in_one_row();
    commands_keep_soundness();
    names_stay_unique();
    names_and_tokens_stay_valid();
}
