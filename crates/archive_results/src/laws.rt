//! Laws of the definitions: each contract is a law over `specs/` alone, and no call does anything.
ghost use Rattle.std.specs.Prelude.{◌≡◌, ◌≢◌, ◌↔◌, ℕ, ℤ, pos, Bool, List, [], length, map, filter, not, Some, None, true, false};
ghost use Rattle.std.specs.List.{All};
ghost use Rattle.mail_core.specs.Author.{author_of};
ghost use Rattle.policy_core.specs.declared.access.Withdrawn.{Withdrawn};
ghost use Rattle.policy_core.specs.declared.access.Withdrawn.TheVariants.{No};
ghost use Rattle.mbox_items.specs.Division.{Item};
ghost use Rattle.archive_model.specs.Commands.{Command, add, withdraw, embargo, list_full, done, taken_in, refused};
ghost use Rattle.archive_model.specs.Keys.{item_key};
ghost use Rattle.archive_model.specs.Lasting.{NoCommandSatisfies, ends_withdrawal, changes_embargo};
ghost use Rattle.archive_model.specs.Machine.{step};
ghost use Rattle.archive_model.specs.Messages.{withdrawal_number};
ghost use Rattle.archive_model.specs.Questions.{address_of};
ghost use Rattle.archive_model.specs.Records.{Archive, Message};
ghost use Rattle.archive_model.specs.Runs.{run};
ghost use Rattle.archive_model.specs.Sound.{IsIndexedCorrectly, HasValidNamesAndTokens};
ghost use Rattle.archive_results.specs.Access.{Ask, IsOwnMessage, ReaderFacts, is_own_by_address, reader_facts, view_of};
ghost use Rattle.archive_results.specs.Filed.{indexed_month_lines, indexed_author_lines};
ghost use Rattle.archive_results.specs.Promise.{without_message, without_all_messages, IsMessageHidden, IsNotOwnMessage};
ghost use Rattle.archive_results.specs.Promise.{DeniesWithdrawn, DeniesWithdrawnBy, DeniesEmbargoed, IsMessageHiddenIfDenied, is_about_message};
ghost use Rattle.archive_results.specs.Results.{view_holds_key, thread_lines, month_lines, author_lines};
ghost use Rattle.archive_results.specs.Shown.{ShownMessage, shown_message};

use archive_model::laws::marks_stay_until_lifted;
use thread_core::laws::each_message_is_in_one_row;

/// A view has no thread of a key exactly where it holds no message of that key.
pub fn a_thread_is_absent_iff_its_message_is()
    ensures { (merge : Bool) (key : List ℕ) (view : List ShownMessage)
        → (thread_lines merge key view ≡ None) ↔ (view_holds_key key view ≡ false) }
{
    each_message_is_in_one_row();
}

/// Where what is filed of each message is what its text says, the lists by what is filed are the month's and the author's of the
/// view, as its texts say.
pub fn correct_index_columns_give_month_and_author_lines()
    ensures month { (a : Archive) (ask : Ask) (month : ℕ) → IsIndexedCorrectly a
        → indexed_month_lines a ask (pos month) ≡ month_lines month (map shown_message (view_of a ask)) }
    ensures author { (a : Archive) (ask : Ask) (key : List ℕ) → IsIndexedCorrectly a
        → indexed_author_lines a ask key ≡ author_lines key (map shown_message (view_of a ask)) }
{}

/// A message is a reader's own exactly where the reader is a person, and the address of this person is the message's author key.
/// So nobody in particular has an own message, nor has a person without an address, and a message without an author key is
/// nobody's own.
pub fn an_own_message_has_the_readers_address()
    ensures exactly { (a : Archive) (ask : Ask) (m : Message)
        → (is_own_by_address (reader_facts a ask).address m ≡ true) ↔ IsOwnMessage a ask m }
    ensures nobody { (a : Archive) (ask : Ask) (m : Message) → ask.reader ≡ None
        → is_own_by_address (reader_facts a ask).address m ≡ false }
    ensures unaddressed { (a : Archive) (ask : Ask) (person : List ℕ) (m : Message)
        → ask.reader ≡ Some person
        → address_of a person ≡ None → is_own_by_address (reader_facts a ask).address m ≡ false }
    ensures authored { (a : Archive) (ask : Ask) (m : Message) → HasValidNamesAndTokens a
        → is_own_by_address (reader_facts a ask).address m ≡ true → author_of m.text ≢ [] }
{}

/// What an author is promised. The view of a reader is as if a message that the policy withholds had never come. So after a
/// message was withdrawn, by its author or the board, the view of each reader who did not write it and to whom the policy denies
/// what this party withdrew is that of the archive in which it never came: of one that was just taken in, the archive before, and
/// at any time the archive of all commands but those about this message, where no list was full. All that the two archives remember
/// beside messages is the same.
pub fn a_withheld_message_might_never_have_arrived()
    ensures never { (a : Archive) (list : List ℕ) (item : Item)
        → length a.index_columns ≡ length a.messages
        → (step a (add list item)).1 ≡ taken_in
        → without_message (step a (add list item)).0 list (item_key item) ≡ a }
    ensures withheld { (a : Archive) (ask : Ask) (list key : List ℕ) → IsMessageHidden a ask list key
        → view_of a ask ≡ view_of (without_message a list key) ask }
    ensures withdrawn { (a : Archive) (ask : Ask) (list key : List ℕ) (by : Withdrawn) → by ≢ No
        → (step a (withdraw list key (withdrawal_number by))).1 ≡ done → IsNotOwnMessage a ask list key
        → DeniesWithdrawnBy by ask (reader_facts a ask)
        → view_of (step a (withdraw list key (withdrawal_number by))).0 ask ≡ view_of
        (without_message a list key) ask }
    ensures history { (a : Archive) (list key : List ℕ) (commands : List Command)
        → length a.index_columns ≡ length a.messages
        → All (λ reply. reply ≢ refused list_full) (run a commands).replies
        → without_message (run a commands).archive list key ≡
        (run (without_message a list key) (filter (λ command. not
        (is_about_message list key command)) commands)).archive }
    ensures beside { (a : Archive) (list key : List ℕ) (by : Withdrawn)
        → without_all_messages (step a (withdraw list key (withdrawal_number by))).0 ≡ without_all_messages (without_message a list key) }
{}

/// How long it is so. A message that was withdrawn is withheld, whatever is commanded later but to restore it, from each reader who
/// did not write it and to whom the policy denies what this party withdrew, as rules and standings are when they ask. So is one
/// that was held back up to a day, whatever is commanded but to set its embargo anew or to lift it.
pub fn a_withheld_message_stays_withheld()
    ensures withdrawn { (a : Archive) (ask : Ask) (list key : List ℕ) (by : Withdrawn)
        (commands : List Command) → by ≢ No
        → (step a (withdraw list key (withdrawal_number by))).1 ≡ done
        → NoCommandSatisfies (ends_withdrawal list key) commands
        → IsMessageHiddenIfDenied (DeniesWithdrawnBy by) (run
        (step a (withdraw list key (withdrawal_number by))).0 commands).archive ask list key }
    ensures held_back { (a : Archive) (ask : Ask) (list key : List ℕ) (until : ℤ)
        (commands : List Command)
        → (step a (embargo list key until)).1 ≡ done → NoCommandSatisfies (changes_embargo list key) commands
        → IsMessageHiddenIfDenied (DeniesEmbargoed until) (run
        (step a (embargo list key until)).0 commands).archive ask list key }
    ensures by_any { (ask : Ask) (reader : ReaderFacts) (by : Withdrawn) → by ≢ No
        → DeniesWithdrawn ask reader → DeniesWithdrawnBy by ask reader }
{
    marks_stay_until_lifted();
}
