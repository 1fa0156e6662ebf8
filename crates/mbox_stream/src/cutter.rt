//! Cutting an mbox that comes in pieces.
ghost use Rattle.std.specs.Prelude.{◌≡◌, ◌≢◌, ◌↔◌, ◌+◌, ◌∷◌, ◌++◌, ◌<◌, ◌⊎◌, if◌then◌else◌, [], ℕ, List, length, true, false, Ok, Err, None, IfOk, IfErr, OnOk, OnErr, IfSome, MatchOption};
ghost use Rattle.mbox_stream.specs.Stream.{IsBeginning};
ghost use Rattle.mbox_stream.specs.Cutter.{IsCutterConsistent, IsFeedFault, IsReadFault, IsEndFault, fault_phase, is_read_failure, is_end_of_input};
ghost use Rattle.mbox_core.specs.declared.faults.MboxFault.TheVariants.{Read, Failed};
ghost use Rattle.mbox_stream.specs.declared.cutter.CutterPhase.TheVariants.{Open, Finished};

use crate::gone::Gone;
use crate::window::{Place, Stop, Window, last_messages, take_in};
use mbox_core::device::{Source, Transcript};
use mbox_core::{MboxFault, OwnedItem};
use std::alloc::Global;
use std::collections::VecDeque;
use std::marker::Model;
use std::slice;

/// How many bytes one read asks for.
const PIECE: usize = 65_536;

/// What a cutter answers next.
#[derive(Clone, Copy, PartialEq, Eq, Drop)]
pub enum CutterPhase {
    /// More may be fed.
    Open,
    /// M1 or M2 was answered.
    Stopped,
    /// M3 was answered: the last items may be missing.
    Short,
    /// The stream ended.
    Finished,
}

/// An mbox that comes in pieces. Its messages wait until they are taken. Beside those it holds the bytes of one message
/// and one piece; after a fault, and after the end, it holds none.
#[derive(Drop)]
pub struct Cutter {
    alloc: Global,
    stream: Transcript,
    taken: Gone,
    waiting: VecDeque<OwnedItem>,
    phase: CutterPhase,
    window: Option<Window>,
}

impl Model for Cutter {
    ghost use Rattle.std.specs.Prelude.{◌++◌};
    ghost use Rattle.mbox_stream.specs.Cutter.{CutterState, IsCutterConsistent};
    ghost use Rattle.mbox_stream.specs.Held.{HoldsUndecidedBytes};

    ghost Value = { CutterState };

    ghost view = { λ s. record { stream = s.stream.bytes; taken = s.taken.items; waiting = s.waiting.items; phase = s.phase } };

    ghost invariant = { λ s. IsCutterConsistent (record { stream = s.stream.bytes; taken = s.taken.items; waiting = s.waiting.items; phase = s.phase })
        × HoldsUndecidedBytes s.window s.phase s.stream.bytes (s.taken.items ++ s.waiting.items) };
}

impl Cutter {
    /// A cutter that nothing was fed to. It takes its memory from this allocator.
    pub fn new(alloc: Global) -> Cutter
        ensures state { result ≡ record { stream = []; taken = []; waiting = []; phase = Open } }
        ensures given { IsCutterConsistent result }
    {
        Cutter {
            alloc,
            stream: Transcript::new(),
            taken: Gone::new(),
            waiting: VecDeque::new(alloc),
            phase: CutterPhase::Open,
            window: Some(Window {
                bytes: Vec::new(alloc),
                place: Place::Front(0),
            }),
        }
    }

    /// Takes the first message that waits. It takes no memory.
    pub fn take(&mut self) -> Option<OwnedItem>
        ensures item { MatchOption result (self.old.waiting ≡ []) (λ item. self.old.waiting ≡ item ∷ self.new.waiting) }
        ensures none { result ≡ None → self.new ≡ self.old }
        ensures taken { IfSome result (λ item. self.new.taken ≡ self.old.taken ++ item ∷ []) }
        ensures stream { self.new.stream ≡ self.old.stream }
        ensures phase { self.new.phase ≡ self.old.phase }
        ensures given { IsCutterConsistent self.new }
    {
        let item = self.waiting.pop_front()?;
        self.taken.note(slice::from_ref(&item));
        Some(item)
    }

    /// Adds bytes at the end of the stream. M1: the first line that is not empty is no separator line, and its LF came.
    /// M3: a growth was refused. M4: the cutter answered a fault, or finished.
    pub fn feed(&mut self, bytes: &[u8]) -> Result<(), MboxFault>
        ensures closed { (result ≡ Err Failed) ↔ (self.old.phase ≢ Open) }
        ensures kept { result ≡ Err Failed → self.new ≡ self.old }
        ensures stream { result ≢ Err Failed → self.new.stream ≡ self.old.stream ++ bytes.now }
        ensures taken { self.new.taken ≡ self.old.taken }
        ensures waiting { IsBeginning self.old.waiting self.new.waiting }
        ensures open { OnOk result (self.new.phase ≡ Open) }
        ensures given { IsCutterConsistent self.new }
        ensures fault { IfErr result (λ fault. IsFeedFault self.new.stream fault × (self.new.phase ≡ fault_phase self.old.phase fault)) }
    {
        let window = match self.window.take() {
            Some(window) => window,
            None => return Err(MboxFault::Failed),
        };
        self.stream.note(bytes);
        match take_in(
            self.alloc,
            &self.stream,
            &self.taken,
            window,
            bytes,
            &mut self.waiting,
        ) {
            Ok(window) => {
                self.window = Some(window);
                Ok(())
            }
            Err(Stop::Faulty(at)) => {
                self.phase = CutterPhase::Stopped;
                Err(MboxFault::Preamble(at))
            }
            Err(Stop::Memory) => {
                self.phase = CutterPhase::Short;
                Err(MboxFault::Memory)
            }
        }
    }

    /// Reads once, and feeds what was read. False: the reader is at its end.
    pub fn read_from<R: Source>(&mut self, input: &mut R) -> Result<bool, MboxFault>
        ensures closed { (result ≡ Err Failed) ↔ (self.old.phase ≢ Open) }
        ensures kept { result ≡ Err Failed → (self.new ≡ self.old) × (R.told input.new ≡ R.told input.old) × (R.ends input.new ≡ R.ends input.old) }
        ensures read { (piece : List ℕ) × (R.told input.new ≡ R.told input.old ++ piece) × (self.new.stream ≡ self.old.stream ++ piece) }
        ensures faults { R.failures input.new ≡ R.failures input.old + (if is_read_failure result then 1 else 0) }
        ensures end { R.ends input.new ≡ R.ends input.old + (if is_end_of_input result then 1 else 0) }
        ensures taken { self.new.taken ≡ self.old.taken }
        ensures waiting { IsBeginning self.old.waiting self.new.waiting }
        ensures none { (result ≡ Ok false) ⊎ (result ≡ Err Read) → (self.new.stream ≡ self.old.stream) × (self.new.waiting ≡ self.old.waiting) }
        ensures some { result ≡ Ok true → length self.old.stream < length self.new.stream }
        ensures open { OnOk result (self.new.phase ≡ Open) }
        ensures given { IsCutterConsistent self.new }
        ensures fault { IfErr result (λ fault. IsReadFault self.new.stream fault × (self.new.phase ≡ fault_phase self.old.phase fault)) }
    {
        if self.window.is_none() {
            return Err(MboxFault::Failed);
        }
        let mut piece = [0u8; PIECE];
        match input.read(&mut piece) {
            Ok(0) => Ok(false),
            Ok(count) => match self.feed(&piece[..count]) {
                Ok(()) => Ok(true),
                Err(fault) => Err(fault),
            },
            Err(_) => {
                self.window = None;
                self.phase = CutterPhase::Stopped;
                Err(MboxFault::Read)
            }
        }
    }

    /// Ends the stream: what waits and was taken are then its messages. M1: `cut` refuses it. M3, M4: as `feed`.
    pub fn finish(&mut self) -> Result<(), MboxFault>
        ensures closed { (result ≡ Err Failed) ↔ (self.old.phase ≢ Open) }
        ensures kept { result ≡ Err Failed → self.new ≡ self.old }
        ensures stream { self.new.stream ≡ self.old.stream }
        ensures taken { self.new.taken ≡ self.old.taken }
        ensures waiting { IsBeginning self.old.waiting self.new.waiting }
        ensures finished { OnOk result (self.new.phase ≡ Finished) }
        ensures given { IsCutterConsistent self.new }
        ensures fault { IfErr result (λ fault. IsEndFault self.new.stream fault × (self.new.phase ≡ fault_phase self.old.phase fault)) }
    {
        let window = match self.window.take() {
            Some(window) => window,
            None => return Err(MboxFault::Failed),
        };
        let mut last = match last_messages(
            self.alloc,
            &self.stream,
            &self.taken,
            &self.waiting,
            window,
        ) {
            Ok(last) => last,
            Err(Stop::Faulty(at)) => {
                self.phase = CutterPhase::Stopped;
                return Err(MboxFault::Preamble(at));
            }
            Err(Stop::Memory) => {
                self.phase = CutterPhase::Short;
                return Err(MboxFault::Memory);
            }
        };
        match self.waiting.append(&mut last) {
            Ok(()) => {
                self.phase = CutterPhase::Finished;
                Ok(())
            }
            Err(_) => {
                self.phase = CutterPhase::Short;
                Err(MboxFault::Memory)
            }
        }
    }
}
