//! What holds of calls that follow one another, and of how much they write: the contract is a law over the definitions of `specs/`,
//! and the call does nothing.
ghost use Rattle.std.specs.Prelude.{◌≡◌, ◌≤◌, ◌+◌, ◌*◌, ℕ, ℤ, List, Bool, true, false, length, map};
ghost use Rattle.std.specs.List.{flat_map};
ghost use Rattle.mail_core.specs.Headers.{sent_date_of};
ghost use Rattle.mbox_core.specs.Division.{Item, DividesIntoItems};
ghost use Rattle.subject_core.specs.BaseSubject.{base_subject_of};
ghost use Rattle.thread_core.specs.Threads.{threads_of};
ghost use Rattle.thread_links.specs.declared.entry.Entry.{Entry};
ghost use Rattle.luvazhimba_c.specs.declared.messages.LuvMessage.{LuvMessage};
ghost use Rattle.luvazhimba_c.specs.Entries.{entry_at, AreThreadsOfMbox};
ghost use Rattle.luvazhimba_c.specs.Fields.{field_texts, field_text_lengths, field_numbers, all_field_texts, all_field_text_lengths, field_numbers_of_item, message_text_at, has_sent_date};
ghost use Rattle.luvazhimba_c.specs.Ids.{id_texts, id_text_lengths};
ghost use Rattle.luvazhimba_c.specs.Places.{ArePlacesOfMessages};

use subject_core::laws::removals_end_at_one_base;
use thread_core::laws::{dummies_have_two_children, each_message_is_in_one_row};

/// The threads of messages where `luv_cut` says that they stand are the threads of the mbox.
pub fn places_have_the_threads_of_the_mbox()
    ensures { (mbox : List ℕ) (places : List LuvMessage) (merge : Bool) → ArePlacesOfMessages mbox places
        → AreThreadsOfMbox mbox merge (threads_of (map (entry_at mbox) places) merge) }
{}

/// A base has no more bytes than its subject.
pub fn a_base_fits_into_its_subject()
    ensures { (subject : List ℕ) → length (base_subject_of subject) ≤ length subject }
{
    removals_end_at_one_base();
}

/// The texts of a message's ids have together no more bytes than the message, and there is one id at most for each five bytes.
pub fn ids_fit_into_their_message()
    ensures texts { (message : List ℕ) → length (id_texts message) ≤ length message }
    ensures count { (message : List ℕ) → 5 * length (id_text_lengths message) ≤ length message }
{}

/// The texts that `luv_fields` writes have together no more bytes than the message, and there are two of them and one for each five
/// bytes at most.
pub fn fields_fit_into_their_message()
    ensures texts { (message : List ℕ) → length (field_texts message) ≤ length message }
    ensures count { (message : List ℕ) → 5 * length (field_text_lengths message) ≤ length message + 10 }
{}

/// The same of those that `luv_fields_of_mbox` writes, with two for each message.
pub fn fields_fit_into_their_mbox()
    ensures texts { (mbox : List ℕ) (items : List Item) → DividesIntoItems mbox items → length (all_field_texts items) ≤ length mbox }
    ensures count { (mbox : List ℕ) (items : List Item) → DividesIntoItems mbox items → 5 * length (all_field_text_lengths items) ≤ length mbox + 10 * length items }
{}

/// A Date field that says when a message was sent says so whenever the message arrived; in the place of another the arrival stands.
pub fn a_date_is_the_same_whenever_its_message_arrived()
    ensures dated { (message : List ℕ) (a b : ℤ) → has_sent_date message ≡ true → sent_date_of message a ≡ sent_date_of message b }
    ensures undated { (message : List ℕ) (a : ℤ) → has_sent_date message ≡ false → sent_date_of message a ≡ a }
{}

/// What `luv_fields_of_mbox` says of the messages of an mbox is what `luv_fields` says of each where it stands.
pub fn places_have_the_fields_of_the_mbox()
    ensures texts { (mbox : List ℕ) (items : List Item) (places : List LuvMessage) → DividesIntoItems mbox items → ArePlacesOfMessages mbox places
        → flat_map (λ (m : LuvMessage). field_texts (message_text_at mbox m)) places ≡ all_field_texts items }
    ensures lens { (mbox : List ℕ) (items : List Item) (places : List LuvMessage) → DividesIntoItems mbox items → ArePlacesOfMessages mbox places
        → flat_map (λ (m : LuvMessage). field_text_lengths (message_text_at mbox m)) places ≡ all_field_text_lengths items }
    ensures numbers { (mbox : List ℕ) (items : List Item) (places : List LuvMessage) → DividesIntoItems mbox items → ArePlacesOfMessages mbox places
        → map (λ (m : LuvMessage). field_numbers (message_text_at mbox m) m.arrival) places ≡ map field_numbers_of_item items }
{}

/// There are at most twice as many rows as messages.
pub fn rows_are_at_most_twice_the_messages()
    ensures { (entries : List Entry) (merge : Bool) → length (threads_of entries merge) ≤ 2 * length entries }
{
    dummies_have_two_children();
    each_message_is_in_one_row();
}
