//! Calls of the desk that follow one another, with what they say together proved by their contracts alone.
ghost use Rattle.std.specs.Prelude.{◌≡◌, OnOk, IfErr};
ghost use Rattle.archive_port.specs.Told.{CallsReadyStore};
ghost use Rattle.desk_tests.specs.Chain.{ImportsListsAndExports, WritesExportPrefix, IsChainSystemError, WritesUntilChainStop, IsChainRefused, chain_refusal_of};

use archive_desk::{DeskError, ExportStop, ImportStop, Report, export, import, month};
use archive_port::ArchiveStore;
use archive_results::{Ask, Line};
use civil_time::Month;
use mbox_core::device::Sink;
use std::alloc::Global;

/// What became of the messages of a file, the lines of a month, and how many bytes an export wrote.
#[derive(Drop)]
pub struct Told {
    /// What became of the messages.
    pub report: Report,
    /// The lines of the month.
    pub lines: Vec<Line>,
    /// How many bytes the export wrote.
    pub count: u64,
}

/// Which of three calls stopped, and where.
#[derive(Clone, Copy, Debug, PartialEq, Eq, Drop)]
pub enum ChainStop {
    Import(ImportStop),
    Month(DeskError),
    Export(ExportStop),
}

/// Imports a file into a list, and then asks for a month of it and writes its export: both are of the archive that the
/// import left.
pub fn import_and_ask<S: ArchiveStore, W: Sink>(
    store: &mut S,
    alloc: Global,
    ask: &Ask<'_>,
    mbox: &[u8],
    asked: Month,
    out: &mut W,
) -> Result<Told, ChainStop>
    ensures chain { CallsReadyStore S.ArchiveState store.old store.new chain_refusal_of result
        (λ a b told. ImportsListsAndExports ask.now mbox.now asked (W.told out.old) (W.told out.new) a b told)
        (λ a b why. IsChainRefused ask.now mbox.now (W.told out.old) (W.told out.new) a b why)
        (λ a b stop. IsChainSystemError ask.now mbox.now a b stop) }
    ensures part { IfErr result (λ stop. WritesExportPrefix S.ArchiveState store.old store.new ask.now mbox.now
        (W.told out.old) (W.told out.new) stop) }
    ensures quiet { OnOk result (W.failures out.new ≡ W.failures out.old) }
    ensures cause { IfErr result (λ stop. WritesUntilChainStop (W.told out.old) (W.told out.new)
        (W.failures out.old) (W.failures out.new) stop) }
{
    let report = match import(store, alloc, ask.list, mbox) {
        Ok(report) => report,
        Err(stop) => return Err(ChainStop::Import(stop)),
    };
    let lines = match month(store, alloc, ask, asked) {
        Ok(lines) => lines,
        Err(fault) => return Err(ChainStop::Month(fault)),
    };
    match export(store, alloc, ask, out) {
        Ok(count) => Ok(Told {
            report,
            lines,
            count,
        }),
        Err(stop) => Err(ChainStop::Export(stop)),
    }
}
