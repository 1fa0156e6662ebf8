//! The key of a message: the SHA-256 of its whole text, in hexadecimal.
ghost use Rattle.std.specs.Prelude.{◌≡◌, true};
ghost use Rattle.std.specs.List.{list_all};
ghost use Rattle.hex.specs.Hex.{encode_lower};
ghost use Rattle.archive_model.specs.Keys.{is_key, is_key_digit};

use mbox_items::Item;
use sha2::{Digest, Sha256};
use std::marker::Model;

/// The key of a message: SHA-256 (FIPS 180-4) of its whole text, as 64 hexadecimal digits in lower case.
#[derive(Clone, Copy, PartialEq, Eq)]
pub struct Key {
    digits: [u8; 64],
}

impl Model for Key {
    ghost use Rattle.std.specs.Prelude.{◌≡◌, ℕ, List, true};
    ghost use Rattle.archive_model.specs.Keys.{is_key};

    ghost Value = { List ℕ };

    ghost view = { λ key. key.digits };

    ghost inverse = { λ digits. record { digits = digits } };

    ghost invariant = { λ key. is_key key.digits ≡ true };
}

impl Key {
    ghost use Rattle.std.specs.Prelude.{◌≡◌, true, false, IfSome, IfNone};
    ghost use Rattle.archive_model.specs.Keys.{item_key, is_key};

    /// The key with these digits. `None` where they are not 64 hexadecimal digits in lower case.
    pub fn read(text: &str) -> Option<Key>
        ensures some { IfSome result (λ key. key ≡ text.now) }
        ensures none { IfNone result (is_key text.now ≡ false) }
    {
        let digits = <[u8; 64]>::try_from(text.as_bytes()).ok()?;
        if are_key_digits(&digits) {
            Some(Key { digits })
        } else {
            None
        }
    }

    /// The key of a message. It takes no memory.
    pub fn of(item: &Item<'_>) -> Key
        ensures { result ≡ item_key item.now }
    {
        let mut hasher = Sha256::new();
        hasher.update(item.text);
        if !item.complete {
            hasher.update(b"\n");
        }
        let digest = hasher.finalize();
        Key {
            digits: hex_digits(&digest),
        }
    }

    /// The digits.
    pub fn as_str(&self) -> &str
        ensures { result.now ≡ self.now }
    {
        match std::str::from_utf8(&self.digits) {
            Ok(text) => text,
            Err(_) => "",
        }
    }
}

/// Some bytes in hexadecimal digits.
fn hex_digits(bytes: &[u8; 32]) -> [u8; 64]
    ensures value { result ≡ encode_lower bytes.now }
    ensures form { is_key result ≡ true }
{
    let mut digits = [0; 64];
    let _written = hex::encode_to_slice(bytes, &mut digits);
    digits
}

fn are_key_digits(bytes: &[u8]) -> bool
    ensures { result ≡ list_all is_key_digit bytes.now }
{
    bytes.iter().all(|byte| is_key_digit(*byte))
}

fn is_key_digit(byte: u8) -> bool
    ensures { result ≡ is_key_digit byte }
{
    matches!(byte, b'0'..=b'9' | b'a'..=b'f')
}
