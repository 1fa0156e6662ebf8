//! The key of a message that is not yet in a list.
ghost use Rattle.std.specs.Prelude.{◌≡◌};
ghost use Rattle.archive_model.specs.Keys.{item_key};

use archive_model::Key;
use mbox_items::Item;

/// The key of a message: SHA-256 (FIPS 180-4) of its whole text. It takes no memory.
pub fn key_of(item: &Item<'_>) -> Key
    ensures { result ≡ item_key item.now }
{
    Key::of(item)
}
