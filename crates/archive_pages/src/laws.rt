//! Laws of the replies: each contract is a law over the definitions of `specs/` alone, and no call
//! does anything.
ghost use Rattle.std.specs.Prelude.{◌≡◌, ℤ, List};
ghost use Rattle.httparse.specs.Grammar.{RequestHead};
ghost use Rattle.policy_core.specs.Rules.{Rule};
ghost use Rattle.archive_model.specs.Records.{Archive};
ghost use Rattle.archive_pages.specs.Laws.{EqualViews, IsAsIfItNeverCame, WithheldLeavesNoTrace, StaysAsIfItNeverCame, StaysEmbargoed, ServesWhatIsAllowed, DeniesWhatIsDenied, ShowsWhatIsAllowed};

use archive_results::laws::a_withheld_message_stays_withheld;

/// Where two archives have the same list names, a request's token is a person's in both or in
/// neither, and the list is threaded alike in both and the readers' views of it are equal, the
/// replies are equal byte for byte, but where one message is asked for by its key.
#[tactic(auto, using(crate::proofs::LawLemmas::equal_views_give_equal_replies))]
pub fn equal_views_give_equal_replies()
    ensures { EqualViews }
{}

/// A message is served, whole, exactly where the list holds it and the first rule that fits allows
/// it.
#[tactic(auto, using(crate::proofs::AccessLaws::serves))]
pub fn an_allowed_message_is_served()
    ensures { (archive : Archive) (rules : List Rule) (day : ℤ) (head : RequestHead)
        → ServesWhatIsAllowed archive rules day head }
{}

/// 403 is answered exactly to a request for a message that the list holds and the policy denies,
/// with the name of the first rule that fits, and `default` where none fits.
#[tactic(auto, using(crate::proofs::AccessLaws::denies))]
pub fn a_denied_message_gets_403_by_its_rule()
    ensures { (archive : Archive) (rules : List Rule) (day : ℤ) (head : RequestHead)
        → DeniesWhatIsDenied archive rules day head }
{}

/// Month, author, threads, thread and mbox are the results of RFC 5256 and RFC 4155 over the
/// messages that the policy allows, alone.
#[tactic(auto, using(crate::proofs::AccessLaws::shows))]
pub fn results_depend_on_allowed_messages_only()
    ensures { (archive : Archive) (rules : List Rule) (day : ℤ) (head : RequestHead)
        → ShowsWhatIsAllowed archive rules day head }
{}

/// What is withheld leaves no trace: the pages, the listings and the mbox of a reader to whom the
/// policy does not show a message are those of the archive in which it never came, byte for byte.
/// That is so of every archive, and so at any time, and of whatever hides the message.
pub fn a_withheld_message_leaves_no_trace()
    ensures always { WithheldLeavesNoTrace }
    ensures withdrawn { StaysAsIfItNeverCame }
    ensures held_back { StaysEmbargoed }
{
    a_withheld_message_stays_withheld();
}

/// What an author is promised. Once a message is withdrawn, by its author or the board, the pages,
/// the listings and the mbox of each reader who did not write it, and to whom the policy denies what
/// this party withdrew, are those of the archive in which it never came, byte for byte.
pub fn a_withdrawn_message_might_never_have_arrived()
    ensures { IsAsIfItNeverCame }
{}
