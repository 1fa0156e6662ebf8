//! What a bearer token is made of (RFC 6750, section 2.1).
ghost use Rattle.std.specs.Prelude.{◌≡◌};
ghost use Rattle.archive_model.specs.BearerTokens.{is_token, is_b64token, is_token_bytes_then_padding, is_padding, is_token_byte};

/// Whether some bytes are a token: 16 to 64 of them, of which one or more are letters, digits or one of `-._~+/`, and what
/// follows those is `=` alone (RFC 6750, 2.1).
pub fn is_token(bytes: &[u8]) -> bool
    ensures { result ≡ is_token bytes.now }
{
    16 <= bytes.len() && bytes.len() <= 64 && is_b64token(bytes)
}

fn is_b64token(bytes: &[u8]) -> bool
    ensures { result ≡ is_b64token bytes.now }
{
    match bytes {
        [first, rest @ ..] => is_token_byte(*first) && is_padded(rest),
        [] => false,
    }
}

fn is_padded(bytes: &[u8]) -> bool
    ensures { result ≡ is_token_bytes_then_padding bytes.now }
{
    let mut at = 0;
    while at < bytes.len() && is_token_byte(bytes[at]) {
        at += 1;
    }
    let (_, rest) = bytes.split_at(at);
    is_padding(rest)
}

fn is_padding(bytes: &[u8]) -> bool
    ensures { result ≡ is_padding bytes.now }
{
    bytes.iter().all(|byte| *byte == b'=')
}

fn is_token_byte(byte: u8) -> bool
    ensures { result ≡ is_token_byte byte }
{
    byte.is_ascii_alphanumeric() || matches!(byte, b'-' | b'.' | b'_' | b'~' | b'+' | b'/')
}
