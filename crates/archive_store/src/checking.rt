//! Whether a store is whole.
ghost use Rattle.archive_tables.specs.Calls.{AnswersOnlyIfOpen};
ghost use Rattle.archive_store.specs.Held.{store_connection};
ghost use Rattle.archive_store.specs.Told.{E15MeansDiskFailed, EndsUnrefused, WritesNothing};
ghost use Rattle.archive_store.specs.Checking.{FindsAllMessageNumbers, ChecksMessageAt, CheckE15MeansDiskFailed};

use crate::store::Store;
use archive_database::checking::{DamagedMessage, find_damage};
use archive_database::reading::read_rowids;
use archive_port::{CheckError, StoreFault};
use archive_tables::texts;
use sqlite::Alter;
use std::alloc::Global;

impl<S: Alter> Store<S> {
    ghost use Rattle.archive_store.specs.Checking.{ChecksArchive, EndsCheck};
    ghost use Rattle.archive_store.specs.Told.{WritesNothing};

    /// Looks at every message: whether its sender, arrival and text make a complete message, its key is that of the text, and it is
    /// filed by what the text says. E16 where one is not so. It holds the numbers of all messages, and one text at a time.
    pub fn check(&mut self, alloc: Global) -> Result<(), CheckError>
        ensures checked { ChecksArchive S.Store self.old self.new result }
        ensures ends { EndsCheck S.Store self.old self.new result }
        ensures writes_nothing { WritesNothing S.Store self.old self.new }
    {
        let places = find_all_places(self, alloc)?;
        for place in places.iter() {
            if let Some(DamagedMessage { list, key }) = damage_at(self, alloc, *place)? {
                return Err(CheckError::Damaged { list, key });
            }
        }
        Ok(())
    }
}

/// The numbers of all messages, lists by name and then in mailbox order.
fn find_all_places<S: Alter>(store: &mut Store<S>, alloc: Global) -> Result<Vec<i64>, StoreFault>
    ensures found { FindsAllMessageNumbers S.Store store.old store.new result }
    ensures was_open { AnswersOnlyIfOpen S.Store (store_connection store.old) (store_connection store.new) result }
    ensures caused { E15MeansDiskFailed S.Store store.old store.new result }
    ensures ends { EndsUnrefused S.Store store.old store.new result }
    ensures writes_nothing { WritesNothing S.Store store.old store.new }
{
    let shown = texts::checking::all_rowids(&mut store.conn);
    let shown = store.wants.pass(shown)?;
    store.wants.pass_fault(read_rowids(alloc, &shown))
}

/// The damage of the message of a number, if it is not sound.
fn damage_at<S: Alter>(
    store: &mut Store<S>,
    alloc: Global,
    place: i64,
) -> Result<Option<DamagedMessage>, StoreFault>
    ensures looked { ChecksMessageAt S.Store store.old store.new place result }
    ensures caused { CheckE15MeansDiskFailed S.Store store.old store.new place result }
    ensures ends { EndsUnrefused S.Store store.old store.new result }
    ensures writes_nothing { WritesNothing S.Store store.old store.new }
{
    let rows = texts::checking::filed_at(&mut store.conn, place);
    let rows = store.wants.pass(rows)?;
    let Some(row) = rows.first() else {
        return Err(StoreFault::Store);
    };
    store.wants.pass_fault(find_damage(alloc, row))
}
