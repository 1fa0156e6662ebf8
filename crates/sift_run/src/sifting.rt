//! Writing the messages of an mbox that pass.
ghost use Rattle.std.specs.Prelude.{◌≡◌, ◌≢◌, ◌≤◌, ◌<◌, ◌+◌, ◌-◌, ◌^◌, ◌++◌, ◌∷◌, [], ℕ, List, length, min, IfOk, IfErr, OnOk, OnErr};
ghost use Rattle.mbox_core.specs.Written.{AppendsPrefixOfText};
ghost use Rattle.mbox_stream.specs.Cutter.{IsCutterConsistent};
ghost use Rattle.sift_run.specs.Sifting.{message_passes, filtered_text, IsFreshCutter, FiltersWholeInput, FiltersSoFar, FilteringFails, MatchesCutterState};
ghost use Rattle.sift_run.specs.Streams.{input_stream_state};
ghost use Rattle.archive_listen.specs.Connections.{error_stream_state};

use civil_time::Day;
use mbox_core::device::{Sink, Source, WriteFault};
use mbox_core::{Item, MboxFault, OwnedItem, write_item, written_len};
use mbox_stream::Cutter;
use policy_core::{Facts, Policy, Standing, Verdict, Withdrawn};
use std::alloc::Global;
use std::marker::Model;

/// What `sift` asks of each message.
#[derive(Debug, Drop)]
pub struct SiftWords<'a> {
    /// The name of the list that the messages are taken to be of.
    pub list: &'a str,
    /// The reader's standing on that list.
    pub standing: Standing,
    /// The reading day.
    pub day: Day,
    /// The least age on that day, in days; negative ages are less than any.
    pub min_age: Option<u32>,
}

impl<'a> Model for SiftWords<'a> {
    ghost use Rattle.sift_run.specs.Sifting.{SiftConditions};

    ghost Value = { SiftConditions };

    ghost view = { λ w. record { list = w.list.now; standing = w.standing; day = w.day; min_age = w.min_age } };
}

/// Why `sift` stopped.
#[derive(Debug, Clone, Copy, PartialEq, Eq, Drop)]
pub enum SiftFault {
    /// The input was no mbox, and nothing was written; or it was not read whole, and what passes of it was written as
    /// far as it was settled.
    Mbox(MboxFault),
    /// The output failed after this many bytes.
    Write { written: u64 },
}

impl<'a> SiftWords<'a> {
    /// Whether a message passes: it is old enough, where an age is asked for, and the policy allows it.
    fn passes(&self, policy: &Policy, item: &Item) -> bool
        ensures { result ≡ message_passes policy.now self.now item.now }
    {
        let facts = Facts {
            list: self.list,
            standing: self.standing,
            day: self.day,
            arrival_day: item.envelope.arrival.day(),
            withdrawn: Withdrawn::No,
            embargo_until: None,
            own: false,
        };
        if let Some(least) = self.min_age {
            if facts.age() < i64::from(least) {
                return false;
            }
        }
        match policy.verdict(&facts) {
            Verdict::Allowed(_) => true,
            Verdict::Denied(_) => false,
        }
    }
}

/// Writes a message if it passes, and answers how many bytes that took. Where the output fails, exactly the first
/// `written` bytes of its text went out.
fn write_if<W: Sink>(
    policy: &Policy,
    words: &SiftWords,
    item: &OwnedItem,
    output: &mut W,
) -> Result<u64, WriteFault>
    ensures ok { OnOk result (W.told output.new ≡ W.told output.old ++ filtered_text policy.now words.now (item.now ∷ [])) }
    ensures count { IfOk result (λ n. n ≡ min (length (filtered_text policy.now words.now (item.now ∷ []))) (2 ^ 64 - 1)) }
    ensures fault { IfErr result (λ e. length (W.told output.new) < 2 ^ 64
        → AppendsPrefixOfText (W.told output.old) (W.told output.new) (filtered_text policy.now words.now (item.now ∷ [])) e.written) }
    ensures quiet { OnOk result (W.failures output.new ≡ W.failures output.old) }
    ensures cause { OnErr result (W.failures output.old < W.failures output.new) }
{
    let item = item.as_item();
    if !words.passes(policy, &item) {
        return Ok(0);
    }
    match write_item(output, &item) {
        Ok(()) => Ok(written_len(&item)),
        Err(fault) => Err(fault),
    }
}

/// Takes all messages that wait, and writes those that pass, in their order. Where the output fails, exactly the first
/// `written` bytes of their text went out, all told.
fn write_waiting<W: Sink>(
    policy: &Policy,
    words: &SiftWords,
    cutter: &mut Cutter,
    output: &mut W,
) -> Result<u64, WriteFault>
    requires { IsCutterConsistent cutter.old }
    ensures ok { OnOk result (W.told output.new ≡ W.told output.old ++ filtered_text policy.now words.now cutter.old.waiting) }
    ensures count { IfOk result (λ n. n ≡ min (length (filtered_text policy.now words.now cutter.old.waiting)) (2 ^ 64 - 1)) }
    ensures quiet { OnOk result (W.failures output.new ≡ W.failures output.old) }
    ensures taken { OnOk result ((cutter.new.taken ≡ cutter.old.taken ++ cutter.old.waiting) × (cutter.new.waiting ≡ [])) }
    ensures stream { cutter.new.stream ≡ cutter.old.stream }
    ensures phase { cutter.new.phase ≡ cutter.old.phase }
    ensures given { IsCutterConsistent cutter.new }

    ensures fault { IfErr result (λ e. length (W.told output.new) < 2 ^ 64
        → AppendsPrefixOfText (W.told output.old) (W.told output.new) (filtered_text policy.now words.now cutter.old.waiting) e.written) }
    ensures some { OnErr result (cutter.old.waiting ≢ []) }
    ensures cause { OnErr result (W.failures output.old < W.failures output.new) }
{
    let mut before: u64 = 0;
    while let Some(item) = cutter.take() {
        match write_if(policy, words, &item, output) {
            Ok(count) => before = before.saturating_add(count),
            Err(fault) => {
                return Err(WriteFault {
                    written: before.saturating_add(fault.written),
                });
            }
        }
    }
    Ok(before)
}

/// Reads to the end, and after each read writes what waits and passes. It answers how many bytes went out.
fn sift_settled<R: Source, W: Sink>(
    policy: &Policy,
    words: &SiftWords,
    cutter: &mut Cutter,
    input: &mut R,
    output: &mut W,
) -> Result<u64, SiftFault>
    requires { IsFreshCutter cutter.old }
    ensures ok { IfOk result (FiltersSoFar policy.now words.now (R.told input.old) (R.told input.new) (W.told output.old) (W.told output.new) cutter.new) }
    ensures ended { OnOk result ((R.ends input.new ≡ R.ends input.old + 1) × (R.failures input.new ≡ R.failures input.old)
        × (W.failures output.new ≡ W.failures output.old)) }

    ensures stopped { IfErr result (FilteringFails policy.now words.now (input_stream_state R.Source input.old) (input_stream_state R.Source input.new)
        (error_stream_state W.Sink output.old) (error_stream_state W.Sink output.new)) }
    ensures caused { IfErr result (MatchesCutterState cutter.new) }
{
    let mut before: u64 = 0;
    for reads in 0..u64::MAX {
        match cutter.read_from(input) {
            Ok(true) => {}
            Ok(false) => return Ok(before),
            Err(fault) => return Err(SiftFault::Mbox(fault)),
        }
        match write_waiting(policy, words, cutter, output) {
            Ok(count) => before = before.saturating_add(count),
            Err(fault) => {
                return Err(SiftFault::Write {
                    written: before.saturating_add(fault.written),
                });
            }
        }
    }
    Err(SiftFault::Mbox(MboxFault::Memory))
}

/// Reads an mbox to its end, and writes the messages that pass. M3: the cutter ran out of memory, or 2^64 - 1 reads gave bytes.
fn sift_through<R: Source, W: Sink>(
    policy: &Policy,
    words: &SiftWords,
    cutter: &mut Cutter,
    input: &mut R,
    output: &mut W,
) -> Result<(), SiftFault>
    requires { IsFreshCutter cutter.old }
    ensures done { OnOk result (FiltersWholeInput policy.now words.now (input_stream_state R.Source input.old) (input_stream_state R.Source input.new)
        (error_stream_state W.Sink output.old) (error_stream_state W.Sink output.new)) }
    ensures stopped { IfErr result (FilteringFails policy.now words.now (input_stream_state R.Source input.old) (input_stream_state R.Source input.new)
        (error_stream_state W.Sink output.old) (error_stream_state W.Sink output.new)) }
    ensures caused { IfErr result (MatchesCutterState cutter.new) }
{
    let before = match sift_settled(policy, words, cutter, input, output) {
        Ok(before) => before,
        Err(fault) => return Err(fault),
    };
    match cutter.finish() {
        Ok(()) => {}
        Err(fault) => return Err(SiftFault::Mbox(fault)),
    }
    match write_waiting(policy, words, cutter, output) {
        Ok(_) => Ok(()),
        Err(fault) => Err(SiftFault::Write {
            written: before.saturating_add(fault.written),
        }),
    }
}

/// Reads an mbox to its end, and writes the messages that pass as RFC 4155 has them, in their order: after each read those
/// that are settled. It holds one message and a piece. M1: the input's first line that is not empty is no separator line;
/// nothing was written. M2: a read failed, and all that was settled and passes went out. M3: there was no memory for a
/// message, or after 2^64 - 1 reads; a beginning of that went out. Write: the output failed, and exactly the first `written`
/// bytes of the text went out.
pub fn sift<R: Source, W: Sink>(
    alloc: Global,
    policy: &Policy,
    words: &SiftWords,
    input: &mut R,
    output: &mut W,
) -> Result<(), SiftFault>
    ensures done { OnOk result (FiltersWholeInput policy.now words.now (input_stream_state R.Source input.old) (input_stream_state R.Source input.new)
        (error_stream_state W.Sink output.old) (error_stream_state W.Sink output.new)) }
    ensures stopped { IfErr result (FilteringFails policy.now words.now (input_stream_state R.Source input.old) (input_stream_state R.Source input.new)
        (error_stream_state W.Sink output.old) (error_stream_state W.Sink output.new)) }
{
    let mut cutter = Cutter::new(alloc);
    sift_through(policy, words, &mut cutter, input, output)
}
