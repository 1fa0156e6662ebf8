//! The store: a connection, and how often memory was wanting.
ghost use Rattle.std.specs.Prelude.{◌≡◌};

use crate::wants::RefusalCounter;
use sqlite::{Alter, Connection};

/// The archive in the tables of a connection.
#[derive(Drop)]
pub struct Store<S: Alter> {
    pub(crate) conn: Connection<S>,
    /// How often memory was refused: each call counts its E14, and the layers above theirs (`count_refusal`).
    pub(crate) wants: RefusalCounter,
}

impl<S: Alter> Store<S> {
    ghost use Rattle.archive_store.specs.Held.{store_connection};

    /// Hands the connection back, and changes nothing.
    pub fn into_connection(self) -> Connection<S>
        ensures { result ≡ store_connection self }
    {
        let Store {
            conn,
            wants: _wants,
        } = self;
        conn
    }
}
