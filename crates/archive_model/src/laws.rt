//! Laws of the machine: each contract is a law over the definitions of `specs/` alone, and no call does anything.
ghost use Rattle.std.specs.Prelude.{◌≡◌, ◌≢◌, ℕ, ℤ, pos, ◌+◌, Bool, List, ◌++◌, length, map, take, Some, true};
ghost use Rattle.std.specs.List.{All};
ghost use Rattle.mbox_items.specs.Division.{Item};
ghost use Rattle.archive_model.specs.Records.{Archive};
ghost use Rattle.archive_model.specs.Addresses.{normalize_address};
ghost use Rattle.archive_model.specs.Commands.{Command, list_add, withdraw, embargo, merge_set, address_set, done, Refusal, refused};
ghost use Rattle.archive_model.specs.Firsts.{accepted_items, keys_in};
ghost use Rattle.archive_model.specs.Machine.{step, message_limit, new_message};
ghost use Rattle.archive_model.specs.Runs.{run, taken};
ghost use Rattle.archive_model.specs.Questions.{AreListNames, address_of, list_names, has_list, merge_of, messages_in};
ghost use Rattle.archive_model.specs.Sound.{AddsWritableItem, HasSoundMessages, IsIndexedCorrectly, HasUniqueNames, HasValidNamesAndTokens, HasOneOptionPerList};
ghost use Rattle.archive_model.specs.Damage.{HasNoDamagedMessage, IsFirstDamaged};
ghost use Rattle.archive_model.specs.Lasting.{NoCommandSatisfies, changes_merge, changes_address, ends_withdrawal, changes_embargo};
ghost use Rattle.archive_model.specs.Lasting.{HoldsForMessageAtKey, is_address_set, is_unknown_to_version_one, IsVersionOneArchive, IsVersionTwoArchive};

use mbox_items::laws::{a_whole_text_is_its_own_whole_text, whole_items_stay_items};

/// A command that is refused leaves the archive as it was.
pub fn a_refusal_changes_nothing()
    ensures { (a : Archive) (command : Command) (why : Refusal) → (step a command).1 ≡ refused why → (step a command).0 ≡ a }
{}

/// Where each message of an archive is a complete item under the key of its text, and what is added are messages that can
/// be written, the same holds after a command, and after any number of them.
pub fn commands_keep_soundness()
    ensures step { (a : Archive) (command : Command) → AddsWritableItem command → HasSoundMessages a → HasSoundMessages (step a command).0 }
    ensures run { (a : Archive) (commands : List Command) → All AddsWritableItem commands → HasSoundMessages a → HasSoundMessages (run a commands).archive }
{
    a_whole_text_is_its_own_whole_text();
    whole_items_stay_items();
}

/// Where what is filed of each message is what its text says, the same holds after a command, and after any number of them.
pub fn commands_keep_index_columns_correct()
    ensures step { (a : Archive) (command : Command) → IsIndexedCorrectly a → IsIndexedCorrectly (step a command).0 }
    ensures run { (a : Archive) (commands : List Command) → IsIndexedCorrectly a → IsIndexedCorrectly (run a commands).archive }
{}

/// An archive that is whole has no message that is the first that is not sound, and no archive has two. An archive is whole where
/// its messages are sound and filed right, and, where it files each message, nowhere else.
pub fn no_archive_is_whole_and_damaged()
    ensures apart { (a : Archive) (list key : List ℕ) → HasNoDamagedMessage a → IsFirstDamaged a list key → ⊥ }
    ensures alone { (a : Archive) (list key other_list other_key : List ℕ) → IsFirstDamaged a list key → IsFirstDamaged a other_list other_key
        → (list ≡ other_list) × (key ≡ other_key) }
    ensures sound { (a : Archive) → length a.index_columns ≡ length a.messages → HasNoDamagedMessage a → HasSoundMessages a × IsIndexedCorrectly a }
    ensures whole { (a : Archive) → HasSoundMessages a × IsIndexedCorrectly a → HasNoDamagedMessage a }
{}

/// Some commands and then others do what they do together, and are answered alike.
pub fn a_run_is_its_parts_in_turn()
    ensures archive { (a : Archive) (xs ys : List Command) → (run a (xs ++ ys)).archive ≡ (run (run a xs).archive ys).archive }
    ensures replies { (a : Archive) (xs ys : List Command) → (run a (xs ++ ys)).replies ≡ (run a xs).replies ++ (run (run a xs).archive ys).replies }
{}

/// Where no two lists, persons, tokens, grants, messages or addresses have one name, the same holds after a command, and after
/// any number of them.
pub fn names_stay_unique()
    ensures step { (a : Archive) (command : Command) → HasUniqueNames a → HasUniqueNames (step a command).0 }
    ensures run { (a : Archive) (commands : List Command) → HasUniqueNames a → HasUniqueNames (run a commands).archive }
{}

/// Where lists and persons have names, persons have tokens and addresses are such, the same holds after a command, and after
/// any number of them.
pub fn names_and_tokens_stay_valid()
    ensures step { (a : Archive) (command : Command) → HasValidNamesAndTokens a → HasValidNamesAndTokens (step a command).0 }
    ensures run { (a : Archive) (commands : List Command) → HasValidNamesAndTokens a → HasValidNamesAndTokens (run a commands).archive }
{}

/// Where each list has one option, and there is no other, the same holds after a command, and after any number of them.
pub fn each_list_keeps_one_option()
    ensures step { (a : Archive) (command : Command) → HasOneOptionPerList a → HasOneOptionPerList (step a command).0 }
    ensures run { (a : Archive) (commands : List Command) → HasOneOptionPerList a → HasOneOptionPerList (run a commands).archive }
{}

/// The names of all lists are these names and in the order of their bytes, and no other order of them is.
pub fn list_names_are_sorted()
    ensures are { (a : Archive) → AreListNames a (list_names a) }
    ensures alone { (a : Archive) (names : List (List ℕ)) → AreListNames a names → names ≡ list_names a }
{}

/// A list to which items are added, from whatever files and however often, holds behind what it held, left as it was, the
/// first of each new key among those that are small enough, in the order in which they came, up to the limit of a list. Where
/// the first items were added before, as by an import that stopped, it holds the same in the end.
pub fn a_list_holds_the_first_of_each_key()
    ensures holds { (a : Archive) (list : List ℕ) (items : List Item) (room : ℕ) → has_list a list ≡ true
        → length (messages_in a list) + room ≡ message_limit
        → messages_in (taken a list items).archive list ≡ messages_in a list ++ map (new_message list) (accepted_items room (keys_in a list) items) }
    ensures repeats { (a : Archive) (list : List ℕ) (items : List Item) (n room : ℕ) → has_list a list ≡ true
        → length (messages_in a list) + room ≡ message_limit
        → messages_in (taken (taken a list (take n items)).archive list items).archive list ≡ messages_in (taken a list items).archive list }
{}

/// What is set is what is told. A list is threaded as was chosen for it last, and gathered by subject where nothing was; the
/// address of a person is the one that was given last, as it is kept. No other command changes that, be it of another list or
/// person or of something else.
pub fn settings_read_back()
    ensures merged { (a : Archive) (list : List ℕ) (merge : Bool) → HasOneOptionPerList a → has_list a list ≡ true
        → merge_of (step a (merge_set list merge)).0 list ≡ merge }
    ensures merge_stays { (a : Archive) (list : List ℕ) (commands : List Command) → NoCommandSatisfies (changes_merge list) commands
        → merge_of (run a commands).archive list ≡ merge_of a list }
    ensures at_first { (a : Archive) (name : List ℕ) → HasOneOptionPerList a → (step a (list_add name)).1 ≡ done
        → merge_of (step a (list_add name)).0 name ≡ true }
    ensures addressed { (a : Archive) (person address : List ℕ) → (step a (address_set person address)).1 ≡ done
        → address_of (step a (address_set person address)).0 person ≡ Some (normalize_address address) }
    ensures address_stays { (a : Archive) (person : List ℕ) (commands : List Command) → NoCommandSatisfies (changes_address person) commands
        → address_of (run a commands).archive person ≡ address_of a person }
{}

/// A message that was withdrawn stays so, by whom it was, whatever is commanded but to restore it; and one that was held back
/// stays so, up to that day, whatever is commanded but to set its embargo anew or to lift it.
pub fn marks_stay_until_lifted()
    ensures withdrawn { (a : Archive) (list key : List ℕ) (party : ℤ) (commands : List Command) → party ≢ pos 0
        → (step a (withdraw list key party)).1 ≡ done → NoCommandSatisfies (ends_withdrawal list key) commands
        → HoldsForMessageAtKey (run (step a (withdraw list key party)).0 commands).archive list key (λ m. m.withdrawn ≡ party) }
    ensures held_back { (a : Archive) (list key : List ℕ) (until : ℤ) (commands : List Command)
        → (step a (embargo list key until)).1 ≡ done → NoCommandSatisfies (changes_embargo list key) commands
        → HoldsForMessageAtKey (run (step a (embargo list key until)).0 commands).archive list key (λ m. m.embargo ≡ Some until) }
{}

/// The commands that programs of an older version knew keep an archive such as a file of that version is read as, as the empty one
/// is: the first knew neither how lists are threaded nor addresses, the second no addresses.
pub fn older_commands_keep_an_older_version_archive()
    ensures first { (a : Archive) (commands : List Command) → NoCommandSatisfies is_unknown_to_version_one commands → IsVersionOneArchive a → IsVersionOneArchive (run a commands).archive }
    ensures second { (a : Archive) (commands : List Command) → NoCommandSatisfies is_address_set commands → IsVersionTwoArchive a → IsVersionTwoArchive (run a commands).archive }
{}
