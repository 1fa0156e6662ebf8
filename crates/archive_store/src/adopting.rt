//! Taking a connection over as a store: it has our tables, of a version that we know.
ghost use Rattle.std.specs.Prelude.{◌≡◌, IfOk, IfErr};
ghost use Rattle.sqlite.specs.Held.{state};
ghost use Rattle.sqlite.specs.State.{HasCleanDisk};
ghost use Rattle.sqlite.specs.Steps.{over_memory};
ghost use Rattle.archive_tables.specs.Tables.{IsArchiveAtRest, archive_of};
ghost use Rattle.archive_tables.specs.Making.{empty_archive};
ghost use Rattle.archive_store.specs.Adopting.{IsAdopted, IsNotAdopted};
ghost use Rattle.archive_store.specs.Held.{store_connection};
ghost use Rattle.archive_store.specs.Told.{HasNoStepLimit};

use crate::store::Store;
use crate::wants::RefusalCounter;
use archive_database::making::{is_empty_database, make_tables, migrate_tables};
use archive_port::StoreFault;
use sqlite::{Alter, Connection, MemStore};
use std::alloc::Global;

/// A connection that was not adopted, and why: E14 or E15.
#[derive(Drop)]
pub struct AdoptStop<S: Alter> {
    /// The connection, as it stood then.
    pub connection: Connection<S>,
    /// Why it was not adopted.
    pub fault: StoreFault,
    /// How often memory was refused meanwhile.
    pub wants: RefusalCounter,
}

impl Store<MemStore> {
    /// A store in memory, with nothing in it. E14 where no memory was left, and nothing else.
    pub fn open_in_memory(alloc: Global) -> Result<Store<MemStore>, StoreFault>
        ensures made { IfOk result (λ store. HasCleanDisk (state over_memory (store_connection store))
            → IsArchiveAtRest (state over_memory (store_connection store))
            × (archive_of (state over_memory (store_connection store)) ≡ empty_archive)) }
        ensures unlimited { IfOk result (λ store. HasNoStepLimit over_memory store) }
        ensures fault { IfErr result (λ fault. fault ≡ StoreFault.Memory) }
    {
        match Store::adopt(Connection::open_in_memory(alloc)?) {
            Ok(store) => Ok(store),
            Err(
                AdoptStop {
                    connection: _connection,
                    fault,
                    wants: _wants,
                },
            ) => Err(fault),
        }
    }
}

impl<S: Alter> Store<S> {
    /// Takes a connection over that is outside a transaction. If the database has no table, index or view, the tables of an
    /// archive are made. Else E15, unless it has as many objects as an archive of some version, 1 to 3, and the table
    /// `version` holds one row, of the number of that version. Tables of an older version become those of this one, in one
    /// transaction, and hold the same archive. A limit on the steps of a query is taken off. E14 if no memory was left,
    /// which the `wants` of the stop counts.
    pub fn adopt(connection: Connection<S>) -> Result<Store<S>, AdoptStop<S>>
        ensures adopted { IfOk result (λ store. IsAdopted S.Store connection store) }
        ensures refused { IfErr result (λ stop. IsNotAdopted S.Store connection stop) }
    {
        let mut conn = connection;
        let done = if is_empty_database(&conn) {
            make_tables(&mut conn)
        } else {
            migrate_tables(&mut conn)
        };
        match done {
            Ok(()) => {
                conn.set_step_limit(None);
                Ok(Store {
                    conn,
                    wants: RefusalCounter::new(),
                })
            }
            Err(fault) => {
                let mut wants = RefusalCounter::new();
                let fault = wants.fault_of(fault);
                Err(AdoptStop {
                    connection: conn,
                    fault,
                    wants,
                })
            }
        }
    }
}
