//! Two questions of a reader, and the same of a store that was closed and opened again.
ghost use Rattle.std.specs.Prelude.{◌≡◌, None, IfOk, IfErr};
ghost use Rattle.archive_port.specs.Replies.{refusal_of_fault};
ghost use Rattle.archive_port.specs.Told.{AnswersFromReadyStore};
ghost use Rattle.archive_desk.specs.Faults.{IsAskFault, ask_reason, refusal_reason};
ghost use Rattle.example_reopened.specs.Reopening.{AnswersAfterReopen, ShowsMonthAndThreads};

use crate::reopening::reopen;
use archive_desk::{DeskError, month, threads};
use archive_port::ArchiveStore;
use archive_results::{Ask, Line, TreeLine};
use archive_store::{Store, StoreFault};
use civil_time::Month;
use sqlite::{FileStore, Options};
use sqlite_disk::Disk;
use std::alloc::Global;
use thread_core::Threader;

/// What a reader is shown of a list: the messages of a month, and the threads of all.
#[derive(Drop)]
pub struct MonthAndThreads {
    /// The lines of the month, by the sent date.
    pub month: Vec<Line>,
    /// The rows of all threads.
    pub threads: Vec<TreeLine>,
}

/// Asks for a month and then for the threads: both answers are of one archive. G1 where there is no such list, G2 where there is
/// no such person; G5 where no memory is left, G4 where the store has none or fails.
pub fn month_and_threads<S: ArchiveStore, T: Threader>(
    store: &mut S,
    alloc: Global,
    ask: &Ask<'_>,
    asked: Month,
    threader: &T,
) -> Result<MonthAndThreads, DeskError>
    ensures listed { AnswersFromReadyStore S.ArchiveState store.old store.new refusal_reason result (λ a. ask_reason a ask.now)
        (λ a shown. ShowsMonthAndThreads a ask.now asked shown.month.items shown.threads.items) }
    ensures fault { IfErr result (λ fault. IsAskFault fault) }
{
    let lines = match month(store, alloc, ask, asked) {
        Ok(lines) => lines,
        Err(fault) => return Err(fault),
    };
    match threads(store, alloc, ask, threader) {
        Ok(rows) => Ok(MonthAndThreads {
            month: lines,
            threads: rows,
        }),
        Err(fault) => Err(fault),
    }
}

/// Closes a store, opens its files again, and asks for a month and the threads: the answers are of the archive that the store
/// remembered before it was closed, and so are G1 and G2. E14 or E15 where it cannot be closed or opened again.
pub fn reopen_and_ask<D: Disk + Drop, T: Threader>(
    store: Store<FileStore<D>>,
    alloc: Global,
    options: Options,
    ask: &Ask<'_>,
    asked: Month,
    threader: &T,
) -> Result<(Store<FileStore<D>>, Result<MonthAndThreads, DeskError>), StoreFault>
    ensures answered { IfOk result (λ told. AnswersAfterReopen store told.0 refusal_reason told.1
        (λ a. ask_reason a ask.now)
        (λ a shown. ShowsMonthAndThreads a ask.now asked shown.month.items shown.threads.items)) }
    ensures why { IfOk result (λ told. IfErr told.1 (λ fault. IsAskFault fault)) }
    ensures fault { IfErr result (λ fault. refusal_of_fault fault ≡ None) }
{
    let mut again = match reopen(store, alloc, options) {
        Ok(again) => again,
        Err(fault) => return Err(fault),
    };
    let shown = month_and_threads(&mut again, alloc, ask, asked, threader);
    Ok((again, shown))
}
