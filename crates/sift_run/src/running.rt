//! Running `sift`: alone, and by the words of a command line.
ghost use Rattle.std.specs.Prelude.{◌≡◌, ◌≤◌, ◌⊎◌, map, false, None, Ok};
ghost use Rattle.clap.specs.Words.{takes};
ghost use Rattle.archive_args.specs.Program.{archive_app};
ghost use Rattle.archive_args.specs.Orders.{IsUsageError, IsOrderStopOf, order_of_args};
ghost use Rattle.archive_args.specs.Values.{SiftValues};
ghost use Rattle.archive_args.specs.declared.orders.Order.{Order};
ghost use Rattle.archive_args.specs.declared.orders.OrderStop.{OrderStop};
ghost use Rattle.sift_run.specs.Refusals.{ReportsOrderStop, WritesErrorLine, command_error_text};
ghost use Rattle.sift_run.specs.Running.{ParseAsOrder, IsReadingDay, IsSiftError, ParseAsOtherOrder, SiftEndsByPolicy, SiftEndsByRules, needs_day};
ghost use Rattle.archive_listen.specs.Connections.{error_stream_state};
ghost use Rattle.sift_run.specs.declared.faults.CommandError.{CommandError as Fault};

use crate::clock::DayClock;
use crate::faults::CommandError;
use crate::files::ReadFiles;
use crate::policies::read_policy_or_open;
use crate::sifting::{SiftFault, SiftWords, sift};
use crate::telling::{BAD_WORDS, finish, report_parse_error};
use archive_args::{Order, SiftArgs, order};
use archive_listen::BufferedSink;
use civil_time::Day;
use mbox_core::device::{Sink, Source, write_bytes};
use policy_core::Policy;
use std::alloc::Global;

/// The reading day: as asked for, or the clock's where an age or a policy is asked for. Else no rule looks at it.
fn reading_day<C: DayClock>(asked: &SiftArgs, clock: &mut C) -> Option<Day>
    ensures { IsReadingDay C.DayClock asked.now.day (needs_day asked.now) clock.old clock.new result }
{
    if asked.day.is_some() {
        asked.day
    } else if asked.min_age.is_some() || asked.policy.is_some() {
        clock.today()
    } else {
        Day::of(1970, 1, 1)
    }
}

/// Sifts by a policy, on the day that is asked for, and passes on what went out (F2).
fn sift_by<C: DayClock, R: Source, O: BufferedSink>(
    alloc: Global,
    policy: &Policy,
    clock: &mut C,
    input: &mut R,
    output: &mut O,
    asked: &SiftArgs<'_>,
) -> Result<(), CommandError>
    ensures { SiftEndsByRules C.DayClock R.Source O.Sink O.BufferedSink.own clock.old clock.new input.old input.new output.old output.new
        asked.now policy.now result }
{
    let Some(day) = reading_day(asked, clock) else {
        return Err(CommandError::Clock);
    };
    let words = SiftWords {
        list: asked.list,
        standing: asked.standing,
        day,
        min_age: asked.min_age,
    };
    match sift(alloc, policy, &words, input, output) {
        Ok(()) => {}
        Err(SiftFault::Mbox(fault)) => return Err(CommandError::Mbox(fault)),
        Err(SiftFault::Write { .. }) => return Err(CommandError::Write),
    }
    match output.flush() {
        Ok(()) => Ok(()),
        Err(_) => Err(CommandError::Write),
    }
}

/// Reads the policy, asks the day, and then writes those messages of the input that pass, and passes them on. P1 to P8, F1, F5: there is
/// no policy, and nothing was asked or read. F3: the clock gave no day. M1 to M3: the input is no mbox, or was not read whole. F2: the
/// output failed.
pub fn run_sift<F: ReadFiles, C: DayClock, R: Source, O: BufferedSink>(
    alloc: Global,
    files: &F,
    clock: &mut C,
    input: &mut R,
    output: &mut O,
    asked: &SiftArgs<'_>,
) -> Result<(), CommandError>
    ensures { SiftEndsByPolicy C.DayClock R.Source O.Sink O.BufferedSink.own clock.old clock.new input.old input.new output.old output.new
        F.ReadFiles files.now asked.now result }
{
    let policy = read_policy_or_open(alloc, files, asked.policy)?;
    sift_by(alloc, &policy, clock, input, output, asked)
}

/// Carries out what the words order, which do not begin with the program's name, where that is a sift; and answers the exit status: 0
/// done, 1 refused, 2 bad words, or words that order something else. Help and the version go to the output; a refusal is one line, and
/// what is wrong with bad words is a text, both to the stream of faults. At 0 all that went out was passed on; what a sift that is refused
/// left in the output the caller passes on.
pub fn run<F: ReadFiles, C: DayClock, R: Source, O: BufferedSink, E: Sink>(
    alloc: Global,
    files: &F,
    clock: &mut C,
    input: &mut R,
    output: &mut O,
    faults: &mut E,
    words: &[&str],
) -> u8
    // At 0 a sift is carried out, whole.
    ensures done { (asked : SiftValues) → ParseAsOrder (map (λ w. w.now) words.now) (Order.Sift asked) → result ≡ 0
        → SiftEndsByPolicy C.DayClock R.Source O.Sink O.BufferedSink.own clock.old clock.new input.old input.new output.old output.new
        F.ReadFiles files.now asked (Ok tt) × (faults.new ≡ faults.old) }

    // At 1 it is refused: for a reason that holds, or for want of memory to read the words. One line tells the refusal.
    ensures refused { (asked : SiftValues) → ParseAsOrder (map (λ w. w.now) words.now) (Order.Sift asked) → result ≡ 1
        → (fault : Fault) × IsSiftError C.DayClock R.Source O.Sink O.BufferedSink.own clock.old clock.new input.old input.new output.old output.new
        F.ReadFiles files.now asked fault × WritesErrorLine (command_error_text fault) (error_stream_state E.Sink faults.old) (error_stream_state E.Sink faults.new) }

    // At 2 the words order no sift: they are bad, or they order something else.
    ensures bad { result ≡ 2 → (IsUsageError (map (λ w. w.now) words.now)
        × ((takes archive_app (map (λ w. w.now) words.now) ≡ false) ⊎ (order_of_args (map (λ w. w.now) words.now) ≡ None)))
        ⊎ ParseAsOtherOrder (map (λ w. w.now) words.now) }

    // Words order a sift, and the status is 0 or 1. Or they order something else, which is bad words here, and nothing was touched but
    // the stream of faults. Or they order nothing, which has a cause, and then that alone is said of which the cause is, with its status.
    ensures stopped { ((asked : SiftValues) × ParseAsOrder (map (λ w. w.now) words.now) (Order.Sift asked) × (result ≤ 1))
        ⊎ (ParseAsOtherOrder (map (λ w. w.now) words.now) × (result ≡ 2) × (clock.new ≡ clock.old) × (input.new ≡ input.old) × (output.new ≡ output.old))
        ⊎ ((stop : OrderStop) × IsOrderStopOf (map (λ w. w.now) words.now) stop × (clock.new ≡ clock.old) × (input.new ≡ input.old)
        × ReportsOrderStop O.Sink O.BufferedSink.own E.Sink output.old output.new faults.old faults.new stop result) }
{
    match order(alloc, words) {
        Ok(Order::Sift(asked)) => {
            let done = run_sift(alloc, files, clock, input, output, &asked);
            finish(faults, &done)
        }
        Ok(_) => {
            let _ = write_bytes(faults, b"error: this program has only the command 'sift'\n");
            BAD_WORDS
        }
        Err(stop) => report_parse_error(output, faults, &stop),
    }
}
