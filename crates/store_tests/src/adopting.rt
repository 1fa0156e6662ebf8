//! Connections that are adopted again, and those that are not.
use archive_store::{Store, StoreFault};
use sqlite::{Connection, MemStore};
use std::alloc::Global;
use std::test::Fail;

/// Whether a connection is adopted after this statement, one over an archive or over nothing.
fn is_adopted(alloc: Global, is_archive: bool, statement: &str) -> Result<bool, Fail> {
    let mut connection = if is_archive {
        Store::open_in_memory(alloc)?.into_connection()
    } else {
        Connection::open_in_memory(alloc)?
    };
    connection.execute(statement, &[])?;
    Ok(is_store(connection))
}

fn is_store(connection: Connection<MemStore>) -> bool {
    match Store::adopt(connection) {
        Ok(mut store) => store.list_add("soc") == Err(StoreFault::ListExists),
        Err(_stop) => false,
    }
}

#[test]
fn connections_are_adopted_again(rt: HostRuntime) -> Result<(), Fail> {
    let list = "INSERT INTO list (name) VALUES ('soc')";
    let other = "CREATE TABLE other (name TEXT) STRICT";
    for (is_archive, statement, adopted) in [
        (true, list, true),
        (true, other, false),
        (true, "UPDATE version SET number = 9", false),
        (true, "UPDATE version SET number = 0", false),
        (true, "DELETE FROM version", false),
        (true, "DROP INDEX message_by_month", false),
        (true, "DROP INDEX message_by_author", false),
        (true, "DROP TABLE address", false),
        (true, "UPDATE version SET number = 2", false),
        (false, other, false),
    ] {
        let found = is_adopted(rt.alloc(), is_archive, statement)?;
        assert_eq!(rt; found, adopted, "{statement}");
    }
    Ok(())
}
