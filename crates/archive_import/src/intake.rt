//! Messages that are held, and then added in one call.
ghost use Rattle.std.specs.Prelude.{◌≡◌, ◌+◌, ◌≤◌, ◌<◌, ◌^◌, ◌∷◌, ◌++◌, [], IsTrue, length, IfErr, IfOk, OnOk, Err};
ghost use Rattle.archive_desk.specs.declared.importing.ImportError.TheVariants.{Mbox as NotCut, Store as Stored};
ghost use Rattle.mbox_core.specs.declared.faults.MboxFault.TheVariants.{Memory as NoRoom};
ghost use Rattle.archive_port.specs.Adding.{reported_count, tally_of_report as store_tally};
ghost use Rattle.archive_port.specs.Crashes.{WritesNothing};
ghost use Rattle.archive_port.specs.Told.{CountsRefusals, LeavesArchive};
ghost use Rattle.archive_import.specs.Intake.{FitsIntakeLimits, ReportGrowsBy};
ghost use Rattle.archive_import.specs.Streaming.{IsImportMemoryRefusal};

use archive_desk::{ImportError, ImportStop, Report};
use archive_port::{AddError, AddReport, ArchiveStore};
use mbox_core::{MboxFault, OwnedItem};
use std::alloc::{AllocError, Global};
use std::marker::Model;

/// Messages that are held, at most. They are many transactions: a call of the store counts its list once, and then adds all.
const MESSAGES_HELD: usize = 4_000;

/// Bytes of their texts, at most, unless the one text is longer.
const BYTES_HELD: usize = 8_388_608;

/// The messages that are held for the next call, as many as `MESSAGES_HELD` and `BYTES_HELD` allow, or one alone; and how
/// many were done before them, with what became of those.
#[derive(Drop)]
pub(crate) struct Intake {
    held: Vec<OwnedItem>,
    bytes: usize,
    done: u64,
    report: Report,
}

impl Model for Intake {
    ghost use Rattle.std.specs.Prelude.{◌≡◌};
    ghost use Rattle.archive_port.specs.Adding.{total_text_bytes};
    ghost use Rattle.archive_import.specs.Intake.{IntakeState, FitsIntakeLimits, report_total};

    ghost Value = { IntakeState };

    ghost view = { λ s. record { held = s.held.items; done = s.done; report = s.report } };

    ghost invariant = { λ s. (report_total s.report ≡ s.done) × (s.bytes ≡ total_text_bytes s.held.items) × FitsIntakeLimits s.held.items };
}

impl Intake {
    /// Nothing is held, and nothing was done.
    pub(crate) fn new(alloc: Global) -> Intake
        ensures { result ≡ record {
          held = [];
          done = 0;
          report = record
              { new = 0; known = 0; too_large = 0 };
        } }
    {
        Intake {
            held: Vec::new(alloc),
            bytes: 0,
            done: 0,
            report: Report {
                new: 0,
                known: 0,
                too_large: 0,
            },
        }
    }

    /// The messages that are held.
    pub(crate) fn held(&self) -> &[OwnedItem]
        ensures { result.now ≡ self.now.held }
    {
        &self.held
    }

    /// What became of the messages before those.
    pub(crate) fn report(&self) -> Report
        ensures { result ≡ self.now.report }
    {
        self.report
    }

    /// A stop before what is held.
    pub(crate) fn stop(&self, fault: ImportError) -> ImportStop
        ensures { result ≡ record { done = self.now.done; fault = fault } }
    {
        ImportStop {
            done: self.done,
            fault,
        }
    }

    /// The same for a fault of the stream. M3 is counted.
    pub(crate) fn stop_uncut<S: ArchiveStore>(&self, store: &mut S, fault: MboxFault) -> ImportStop
        ensures stop { result ≡ record { done = self.now.done; fault = NotCut fault } }
        ensures counted { CountsRefusals S.ArchiveState {A = Unit {0}} (λ stop. IsImportMemoryRefusal stop.fault) store.old store.new
            (Err result) }
        ensures leaves { LeavesArchive S.ArchiveState store.old store.new }
        ensures writes_nothing { WritesNothing S.ArchiveState store.old store.new }
    {
        match fault {
            MboxFault::Memory => {
                store.count_refusal(AllocError.into());
                self.stop(ImportError::Mbox(MboxFault::Memory))
            }
            _ => self.stop(ImportError::Mbox(fault)),
        }
    }

    /// A stop amid what is held, so far as it was added.
    pub(crate) fn stop_amid(&self, stop: AddError) -> ImportStop
        requires { self.now.done + stop.done < 2 ^ 64 }
        ensures { result ≡ record { done = self.now.done + stop.done; fault = Stored stop.fault } }
    {
        ImportStop {
            done: self.done + stop.done as u64,
            fault: ImportError::Store(stop.fault),
        }
    }

    /// Whether this message can be held too.
    pub(crate) fn has_room(&self, item: &OwnedItem) -> bool
        ensures { IsTrue result → FitsIntakeLimits (self.now.held ++ item.now ∷ []) }
    {
        self.held.len() < MESSAGES_HELD
            && self.bytes.saturating_add(item.text().len()) <= BYTES_HELD
    }

    /// Holds a message more. M3, which is counted: memory for it was refused.
    pub(crate) fn hold<S: ArchiveStore>(
        &mut self,
        store: &mut S,
        item: OwnedItem,
    ) -> Result<(), ImportStop>
        requires { FitsIntakeLimits (self.old.held ++ item ∷ []) }
        ensures ok { OnOk result (self.new ≡ record self.old
            { held = self.old.held ++ item ∷ [] }) }
        ensures fault { IfErr result (λ stop. stop ≡ record
            { done = self.old.done; fault = NotCut NoRoom }) }
        ensures counted { CountsRefusals S.ArchiveState (λ stop. IsImportMemoryRefusal stop.fault) store.old store.new result }
        ensures leaves { LeavesArchive S.ArchiveState store.old store.new × WritesNothing S.ArchiveState store.old store.new }
    {
        let bytes = self.bytes.saturating_add(item.text().len());
        match self.held.push(item) {
            Ok(()) => {
                self.bytes = bytes;
                Ok(())
            }
            Err(refused) => {
                store.count_refusal(refused.into());
                Err(self.stop(ImportError::Mbox(MboxFault::Memory)))
            }
        }
    }

    /// How many are done once those that are held are. Refused where that is 2^64 or more, as if no memory were left to count them.
    pub(crate) fn done_after(&self) -> Result<u64, AllocError>
        ensures { IfOk result (λ n. n ≡ self.now.done + length self.now.held) }
    {
        match self.done.checked_add(self.held.len() as u64) {
            Some(done) => Ok(done),
            None => Err(AllocError),
        }
    }

    /// Those that were held are done: this became of them.
    pub(crate) fn count(&mut self, alloc: Global, counts: AddReport)
        requires fits { self.old.done + length self.old.held < 2 ^ 64 }
        requires total { reported_count counts ≡ length self.old.held }
        ensures held { self.new.held ≡ [] }
        ensures done { self.new.done ≡ self.old.done + length self.old.held }
        ensures report { ReportGrowsBy self.old.report (store_tally counts) self.new.report }
    {
        self.done += self.held.len() as u64;
        self.report = Report {
            new: self.report.new + counts.new as u64,
            known: self.report.known + counts.known as u64,
            too_large: self.report.too_large + counts.too_large as u64,
        };
        self.held = Vec::new(alloc);
        self.bytes = 0;
    }
}
