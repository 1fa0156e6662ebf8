//! What a name of a list or of a rule is made of.
ghost use Rattle.std.specs.Prelude.{◌≡◌};
ghost use Rattle.std.specs.List.{list_all};
ghost use Rattle.policy_core.specs.Names.{is_name, is_name_byte};

/// Whether a text is a name of a list or of a rule: 1 to 40 bytes of `a` to `z`, `0` to `9` and `-`, the first a letter.
pub fn is_name(text: &str) -> bool
    ensures { result ≡ is_name text.now }
{
    match text.as_bytes() {
        [first, rest @ ..] => first.is_ascii_lowercase()
            && are_name_bytes(rest)
            && rest.len() <= 39,
        [] => false,
    }
}

fn are_name_bytes(bytes: &[u8]) -> bool
    ensures { result ≡ list_all is_name_byte bytes.now }
{
    bytes.iter().all(|byte| is_name_byte(*byte))
}

fn is_name_byte(byte: u8) -> bool
    ensures { result ≡ is_name_byte byte }
{
    byte.is_ascii_lowercase() || byte.is_ascii_digit() || byte == b'-'
}
