//! A message's header (RFC 5322 section 2.2).
ghost use Rattle.std.specs.Prelude.{◌≡◌, MatchOption, Some, None, IfOk};
ghost use Rattle.mail_core.specs.Fields.{fields_of, field_of, has_name};

use crate::field_reading::{Field, Fields};

/// The header fields of a message, in order. It takes no memory.
pub fn fields<'a>(text: &'a [u8]) -> Fields<'a>
    ensures { result ≡ fields_of text.entry.now }
{
    Fields::of(text)
}

/// Whether a field has this name, but for ASCII case.
pub(crate) fn is_named(field: &Field<'_>, name: &[u8]) -> bool
    ensures { result ≡ has_name name.now field.now }
{
    field.name.eq_ignore_ascii_case(name)
}

/// The body of the first header field of this name, which is compared without ASCII case. `None` where there is no
/// such field. It takes no memory.
pub fn first<'a>(text: &'a [u8], name: &[u8]) -> Option<&'a [u8]>
    ensures { MatchOption result (field_of text.entry.now name.now ≡ None)
        (λ body. field_of text.entry.now name.now ≡ Some body.now) }
{
    let field = fields(text).find(|field| is_named(field, name))?;
    Some(field.body)
}
