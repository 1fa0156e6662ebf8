//! The bearer token of a request (RFC 6750, section 2.1).
ghost use Rattle.std.specs.Prelude.{◌≡◌, length, map, codes, All};
ghost use Rattle.std.specs.Str.{str_eq_ignore_ascii_case};
ghost use Rattle.httparse.specs.Spans.{IsHeaderWithin, header_bytes};
ghost use Rattle.archive_requests.specs.Asked.{model_bearer};
ghost use Rattle.archive_requests.specs.Bearer.{bearer_in_field_value, bearer_in_fields, begins_with_space, token_if_valid, skip_spaces};

use archive_model::is_token;
use httparse::spans::HeaderSpan;
use std::str;

/// Who asks, as the fields of a head say.
#[derive(Clone, Copy, Debug, Drop)]
pub(crate) enum Bearer<'b> {
    /// No Authorization field.
    Nobody,
    /// One that holds a token.
    Token(&'b str),
    /// One that holds none.
    NoToken,
    /// More than one.
    Doubled,
}

fn if_token(bytes: &[u8]) -> Bearer<'_>
    ensures { model_bearer result ≡ token_if_valid bytes.now }
{
    if !is_token(bytes) {
        return Bearer::NoToken;
    }
    match str::from_utf8(bytes) {
        Ok(text) => Bearer::Token(text),
        Err(_) => Bearer::NoToken,
    }
}

fn skip_spaces(bytes: &[u8]) -> &[u8]
    ensures { result.now ≡ skip_spaces bytes.now }
{
    let mut rest = bytes;
    while let [b' ', after @ ..] = rest {
        rest = after;
    }
    rest
}

fn begins_with_space(bytes: &[u8]) -> bool
    ensures { result ≡ begins_with_space bytes.now }
{
    matches!(bytes, [b' ', ..])
}

fn bearer_in(value: &[u8]) -> Bearer<'_>
    ensures { model_bearer result ≡ bearer_in_field_value value.now }
{
    let (scheme, rest) = value.split_at(6.min(value.len()));
    if !scheme.eq_ignore_ascii_case(b"bearer") {
        return Bearer::NoToken;
    }
    if !begins_with_space(rest) {
        return Bearer::NoToken;
    }
    if_token(skip_spaces(rest))
}

// Whether a name is Authorization, in any case.
fn is_authorization(name: &[u8]) -> bool
    ensures { result ≡ str_eq_ignore_ascii_case name.now (codes "authorization") }
{
    name.eq_ignore_ascii_case(b"authorization")
}

/// Who asks, by the fields whose names and values lie in the bytes.
pub(crate) fn bearer_of<'b>(bytes: &'b [u8], fields: &[HeaderSpan]) -> Bearer<'b>
    requires { All (IsHeaderWithin (length bytes.now)) fields.now }
    ensures { model_bearer result ≡ bearer_in_fields (map (header_bytes bytes.now) fields.now) }
{
    let mut found = None;
    for field in fields {
        if is_authorization(field.name.of(bytes)) {
            if found.is_some() {
                return Bearer::Doubled;
            }
            found = Some(field.value);
        }
    }
    match found {
        Some(value) => bearer_in(value.of(bytes)),
        None => Bearer::Nobody,
    }
}
