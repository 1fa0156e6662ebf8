//! The addresses of persons.
ghost use Rattle.std.specs.Prelude.{◌≡◌, IfOk, string_bytes};
ghost use Rattle.std.specs.List.{list_all};
ghost use Rattle.archive_model.specs.Addresses.{is_address, is_address_byte, normalize_address};

use std::alloc::{AllocError, Global};

/// Whether some bytes are an address: 1 to 254 of them, each of 33 to 126.
pub fn is_address(bytes: &[u8]) -> bool
    ensures { result ≡ is_address bytes.now }
{
    1 <= bytes.len() && bytes.len() <= 254 && are_address_bytes(bytes)
}

/// An address as the archive keeps it: in ASCII lower case.
pub fn normalize_address(alloc: Global, address: &str) -> Result<String, AllocError>
    ensures { IfOk result (λ kept. string_bytes kept ≡ normalize_address address.now) }
{
    address.to_ascii_lowercase(alloc)
}

fn are_address_bytes(bytes: &[u8]) -> bool
    ensures { result ≡ list_all is_address_byte bytes.now }
{
    bytes.iter().all(|byte| is_address_byte(*byte))
}

fn is_address_byte(byte: u8) -> bool
    ensures { result ≡ is_address_byte byte }
{
    33 <= byte && byte <= 126
}
