//! What an archive is asked, and what it promises.
use crate::checking::CheckError;
use crate::commands::Command;
use crate::faults::StoreFault;
use crate::marks::DatedMarks;
use crate::reports::{AddError, AddReport};
use crate::state::ArchiveState;
use crate::walking::Selection;
use crate::wants::MemoryRefusal;
use archive_model::{CommandFacts, Key, Message};
use civil_time::Day;
use mbox_items::Item;
use policy_core::Standing;
use std::alloc::Global;

/// What holds an archive: each command is one step of the archive's machine, and each question is answered from the archive. A
/// question leaves the archive, and writes nothing. A call is refused for one of E1 to E13, by its arguments and by what the archive
/// holds. E14 says that there was no memory. E15 says that what it lies in failed, or refused what the machine carries out, or holds
/// what no command writes.
pub trait ArchiveStore: ArchiveState {
    ghost use Rattle.std.specs.Prelude.{IsTrue, ◌≡◌, ◌≢◌, ◌≤◌, ◌-◌, [], ◌∷◌, None, IfOk, IfErr, length, drop, map, option_map, string_bytes, IsUtf8, MatchOption};
    ghost use Rattle.std.specs.List.{All};
    ghost use Rattle.std.specs.Option.{IsSomeAnd};
    ghost use Rattle.archive_model.specs.Commands.{no_list, no_person, list_full};
    ghost use Rattle.archive_model.specs.Messages.{archived_message};
    ghost use Rattle.archive_model.specs.Questions.{has_list, list_names, list_refusal, message_of, messages_in, merge_of, address_of, person_refusal, person_of_token, standing_of, standing_refusal};
    ghost use Rattle.archive_model.specs.Records.{Archive};
    ghost use Rattle.archive_port.specs.Adding.{AddsAllMessages, RefusesAnItem, reported_count};
    ghost use Rattle.archive_port.specs.Checking.{ChecksArchive, EndsCheck};
    ghost use Rattle.archive_port.specs.Commands.{ExecutesCommand, spec_command};
    ghost use Rattle.archive_port.specs.Crashes.{CrashAddsAllBatches, WritesNothing};
    ghost use Rattle.archive_port.specs.Messages.{AreDatedMarksOf, HaveDistinctKeys, IsReadable};
    ghost use Rattle.archive_port.specs.Replies.{IsRefusedOnlyFor, done_count_on_error, map_error_to_fault, refusal_of_fault};
    ghost use Rattle.archive_port.specs.Told.{AnswersStoreQuestion, CountsOneRefusal, EndsPartialWrite, EndsQuestion, EndsQuestionOrUnreadable, EndsUnrefused, WasOpen};
    ghost use Rattle.archive_port.specs.Walking.{BeginsOver, E15MeansNextUnreadable, GivesNext, LeavesOneFewer, PassesNext, PeeksNextMarks, WalkFailsToBegin};
    ghost use Rattle.archive_port.specs.Walking.{selected_messages, walk_over_store};
    ghost use Rattle.archive_port.specs.Words.{standing_rank};

    /// Whether there is a list of this name.
    fn has_list(&mut self, name: &str) -> Result<bool, StoreFault>
        ensures answer { AnswersStoreQuestion Self.ArchiveState self.old self.new result (λ _. None)
            (λ a found. found ≡ has_list a name.now) }
        ensures writes_nothing { WritesNothing Self.ArchiveState self.old self.new }
        ensures ends { EndsQuestion Self.ArchiveState self.old self.new result [] }
        ensures was_open { WasOpen Self.ArchiveState self.old self.new refusal_of_fault result };

    /// The names of all lists, in the order of their bytes.
    fn lists(&mut self, alloc: Global) -> Result<Vec<String>, StoreFault>
        ensures answer { AnswersStoreQuestion Self.ArchiveState self.old self.new result (λ _. None)
            (λ a names. map string_bytes names.items ≡ list_names a) }
        ensures ends { EndsQuestionOrUnreadable Self.ArchiveState self.old self.new result []
            (λ a. ¬ All IsUtf8 a.lists) }
        ensures writes_nothing { WritesNothing Self.ArchiveState self.old self.new };

    /// Whether the threads of a list are gathered by subject. E4 where there is no such list.
    fn merge_of(&mut self, list: &str) -> Result<bool, StoreFault>
        ensures answer { AnswersStoreQuestion Self.ArchiveState self.old self.new result
            (λ a. list_refusal a list.now) (λ a merge. merge ≡ merge_of a list.now) }
        ensures ends { EndsQuestion Self.ArchiveState self.old self.new result (no_list ∷ []) }
        ensures writes_nothing { WritesNothing Self.ArchiveState self.old self.new };

    /// The name of the person who has this token, if somebody has it.
    fn person_of_token(&mut self, token: &str) -> Result<Option<String>, StoreFault>
        ensures answer { AnswersStoreQuestion Self.ArchiveState self.old self.new result (λ _. None)
            (λ a name. option_map string_bytes name ≡ person_of_token a token.now) }
        ensures ends { EndsQuestionOrUnreadable Self.ArchiveState self.old self.new result []
            (λ a. IsSomeAnd (person_of_token a token.now) (λ name. ¬ IsUtf8 name)) }
        ensures writes_nothing { WritesNothing Self.ArchiveState self.old self.new };

    /// The standing of a person on a list and a day: the highest kind that a grant gives which holds on that day, and
    /// `Public` where none does. E6 where there is no such person, E4 where there is no such list.
    fn standing(&mut self, person: &str, list: &str, day: Day) -> Result<Standing, StoreFault>
        ensures answer { AnswersStoreQuestion Self.ArchiveState self.old self.new result
            (λ a. standing_refusal a person.now list.now)
            (λ a standing. standing_rank standing ≡ standing_of a person.now list.now day) }
        ensures ends { EndsQuestionOrUnreadable Self.ArchiveState self.old self.new result (no_person ∷ no_list ∷ [])
            (λ a. (standing : Standing)
            → standing_rank standing ≢ standing_of a person.now list.now day) }
        ensures writes_nothing { WritesNothing Self.ArchiveState self.old self.new };

    /// The address of a person, who may have none. E6 where there is no such person.
    fn address(&mut self, person: &str) -> Result<Option<String>, StoreFault>
        ensures answer { AnswersStoreQuestion Self.ArchiveState self.old self.new result
            (λ a. person_refusal a person.now)
            (λ a found. option_map string_bytes found ≡ address_of a person.now) }
        ensures ends { EndsQuestionOrUnreadable Self.ArchiveState self.old self.new result (no_person ∷ [])
            (λ a. IsSomeAnd (address_of a person.now) (λ address. ¬ IsUtf8 address)) }
        ensures writes_nothing { WritesNothing Self.ArchiveState self.old self.new };

    /// The message of a list with a key, if the list holds it. E4 where there is no such list.
    fn row(&mut self, list: &str, key: &Key) -> Result<Option<Message>, StoreFault>
        ensures answer { AnswersStoreQuestion Self.ArchiveState self.old self.new result
            (λ a. list_refusal a list.now)
            (λ a found. option_map (archived_message list.now) found ≡ message_of a list.now key.now) }
        ensures ends { EndsQuestionOrUnreadable Self.ArchiveState self.old self.new result (no_list ∷ [])
            (λ a. IsSomeAnd (message_of a list.now key.now) (λ m. ¬ IsReadable m)) }
        ensures was_open { WasOpen Self.ArchiveState self.old self.new refusal_of_fault result }
        ensures writes_nothing { WritesNothing Self.ArchiveState self.old self.new };

    /// The same for a caller who knows the list: `None`, too, where there is no such list.
    fn find(&mut self, list: &str, key: &Key) -> Result<Option<Message>, StoreFault>
        ensures answer { AnswersStoreQuestion Self.ArchiveState self.old self.new result (λ _. None)
            (λ a found. option_map (archived_message list.now) found ≡ message_of a list.now key.now) }
        ensures ends { EndsQuestionOrUnreadable Self.ArchiveState self.old self.new result []
            (λ a. IsSomeAnd (message_of a list.now key.now) (λ m. ¬ IsReadable m)) }
        ensures writes_nothing { WritesNothing Self.ArchiveState self.old self.new };

    /// The arrival and the marks of that message: its text is not read. E4 where there is no such list.
    fn marks(&mut self, list: &str, key: &Key) -> Result<Option<DatedMarks>, StoreFault>
        ensures answer { AnswersStoreQuestion Self.ArchiveState self.old self.new result
            (λ a. list_refusal a list.now)
            (λ a found. MatchOption found (message_of a list.now key.now ≡ None)
            (λ marks. IsSomeAnd (message_of a list.now key.now) (AreDatedMarksOf marks))) }
        ensures ends { EndsQuestionOrUnreadable Self.ArchiveState self.old self.new result (no_list ∷ [])
            (λ a. IsSomeAnd (message_of a list.now key.now) (λ m. ¬ IsReadable m)) }
        ensures was_open { WasOpen Self.ArchiveState self.old self.new refusal_of_fault result }
        ensures writes_nothing { WritesNothing Self.ArchiveState self.old self.new };

    /// The messages of a list in mailbox order. E4 where there is no such list.
    fn rows(&mut self, alloc: Global, list: &str) -> Result<Vec<Message>, StoreFault>
        ensures answer { AnswersStoreQuestion Self.ArchiveState self.old self.new result
            (λ a. list_refusal a list.now)
            (λ a found. map (archived_message list.now) found.items ≡ messages_in a list.now) }
        ensures ends { EndsQuestionOrUnreadable Self.ArchiveState self.old self.new result (no_list ∷ [])
            (λ a. ¬ All IsReadable (messages_in a list.now)) }
        ensures writes_nothing { WritesNothing Self.ArchiveState self.old self.new };

    /// Begins a walk over these of a list's messages, which may be dropped at any of them. E4 where there is no such list.
    fn each_selected(
        &mut self,
        alloc: Global,
        list: &str,
        which: &Selection<'_>,
    ) -> Result<Self::Walk, StoreFault>
        ensures refused { WalkFailsToBegin Self.ArchiveState self.old list.now result self.new }
        ensures begun { IfOk result (λ walk. BeginsOver Self.ArchiveState self.old list.now
            (λ a. selected_messages a list.now which.now) (walk_over_store self.new walk)) }
        ensures kind { IsRefusedOnlyFor result (no_list ∷ []) }
        ensures writes_nothing { WritesNothing Self.ArchiveState self.old self.new };

    /// The next message of a walk. `None` where all were given.
    fn next(&mut self, walk: &mut Self::Walk) -> Result<Option<Message>, StoreFault>
        ensures given { GivesNext Self.ArchiveState (walk_over_store self.old walk.old) (walk_over_store self.new walk.new) result }
        ensures left { LeavesOneFewer Self.ArchiveState walk.old walk.new result }
        ensures caused { E15MeansNextUnreadable Self.ArchiveState (walk_over_store self.old walk.old) (walk_over_store self.new walk.new) result }
        ensures ends { EndsUnrefused Self.ArchiveState self.old self.new result }
        ensures writes_nothing { WritesNothing Self.ArchiveState self.old self.new };

    /// The arrival and the marks of the next message of a walk, which stays the next: its text is not looked at. `None` where all were
    /// given.
    fn peek_marks(&mut self, walk: &mut Self::Walk) -> Result<Option<DatedMarks>, StoreFault>
        ensures shown { PeeksNextMarks Self.ArchiveState (walk_over_store self.old walk.old) (walk_over_store self.new walk.new) result }
        ensures caused { E15MeansNextUnreadable Self.ArchiveState (walk_over_store self.old walk.old) (walk_over_store self.new walk.new) result }
        ensures ends { EndsUnrefused Self.ArchiveState self.old self.new result }
        ensures writes_nothing { WritesNothing Self.ArchiveState self.old self.new };

    /// Passes the next message of a walk by, as if it were given. It does nothing where all were given.
    fn pass(walk: &mut Self::Walk)
        ensures passed { PassesNext Self.ArchiveState walk.old walk.new }
        ensures left { Self.remaining_count walk.new ≡ Self.remaining_count walk.old - 1 };

    /// Carries a command out: one step of the archive's machine. What was found of its names before says what it answers: whether
    /// there was a grant to revoke or an embargo to lift, and whether the list held a message that is added. If several refusals
    /// apply, the first is answered, in this order:
    ///
    /// - `ListAdd`: E1, E3
    /// - `MergeSet`: E4
    /// - `PersonAdd`: E1, E2, E5, E7
    /// - `AddressSet`: E6, E2
    /// - `Grant`: E6, E4, E11
    /// - `Revoke`: E6, E4
    /// - `Add`: E4, E13, and E12 unless the list holds the message
    /// - `Withdraw`: E4, E8, E9
    /// - `Restore`: E4, E8, E10
    /// - `Embargo`, `Lift`: E4, E8
    fn carry(&mut self, command: &Command<'_>) -> Result<CommandFacts, StoreFault>
        ensures { ExecutesCommand Self.ArchiveState self.old self.new (spec_command command.now) result };

    /// Adds messages to a list, one after the other, some at once. One that is too large is passed over. E4 where there is no such
    /// list, E12 where the list holds 50,000 messages and the next is not on it.
    fn add_all(
        &mut self,
        alloc: Global,
        list: &str,
        items: &[Item<'_>],
    ) -> Result<AddReport, AddError>
        ensures step { AddsAllMessages Self.ArchiveState self.old self.new result list.now items.entry.now }
        ensures crash { CrashAddsAllBatches Self.ArchiveState self.old self.new list.now items.entry.now result }
        ensures total { IfOk result (λ report. reported_count report ≡ length items.entry.now) }
        ensures bound { IfErr result (λ stop. stop.done ≤ length items.entry.now) }
        ensures ends { EndsPartialWrite Self.ArchiveState self.old self.new (map_error_to_fault (λ stop. stop.fault) result)
            (no_list ∷ list_full ∷ [])
            (λ store. RefusesAnItem Self.ArchiveState store list.now (drop (done_count_on_error (λ stop. stop.done) result) items.entry.now)) };

    /// Looks at every message: whether its sender, arrival and text make a complete message, its key is that of the text, and it is
    /// filed by what the text says. E16 where one is not so.
    fn check(&mut self, alloc: Global) -> Result<(), CheckError>
        ensures checked { ChecksArchive Self.ArchiveState self.old self.new result }
        ensures ends { EndsCheck Self.ArchiveState self.old self.new result }
        ensures writes_nothing { WritesNothing Self.ArchiveState self.old self.new };

    /// Counts one refusal of memory more, which the caller hands over. A call that answers that no memory is left calls it before.
    /// Only clauses read the count.
    fn count_refusal(&mut self, why: MemoryRefusal)
        ensures counted { CountsOneRefusal Self.ArchiveState self.old self.new }
        ensures writes_nothing { WritesNothing Self.ArchiveState self.old self.new };

    // Of an archive that is held a crash leaves what is remembered, if it leaves an archive.
    ghost leaves_what_is_held: { (store : Self) → Self.is_at_rest store → (left : Self.Left) → Self.may_leave store left
        → (archive : Archive) → Self.is_stored archive left → Self.is_stored (Self.archive store) left };

    // Of an archive that is held no two messages of a list have the same key.
    ghost holds_distinct_keys: { (store : Self) → Self.is_at_rest store → HaveDistinctKeys (Self.archive store).messages };

    // One at rest is open.
    ghost at_rest_is_open: { (store : Self) → Self.is_at_rest store → IsTrue (Self.is_open store) };
}
