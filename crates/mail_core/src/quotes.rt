//! Quoted strings (RFC 5322 section 3.2.4).
ghost use Rattle.std.specs.Prelude.{◌≡◌, ◌<◌, ◌≤◌, length, OnOk, MatchOption, Some, None, false, drop};
ghost use Rattle.mail_core.specs.Quotes.{after_closing_quote, unquoted};

use civil_time::Memory;

/// The place behind the quote that ends the quoted string whose text begins here.
pub(crate) fn quote_end(text: &[u8], from: usize) -> Option<usize>
    requires { from ≤ length text.now }
    ensures { MatchOption result (after_closing_quote false (drop from text.now) ≡ None) (λ end. (from < end) × (end ≤ length text.now)
        × (after_closing_quote false (drop from text.now) ≡ Some (drop end text.now))) }
{
    let mut at = from;
    let mut quoted = false;
    while at < text.len() {
        let byte = text[at];
        at += 1;
        if quoted {
            quoted = false;
        } else if byte == b'"' {
            return Some(at);
        } else if byte == b'\\' {
            quoted = true;
        }
    }
    None
}

/// Writes the text between quotes without the backslashes that quote, in place of what was there.
pub(crate) fn unquote(value: &mut Vec<u8>, inside: &[u8]) -> Result<(), Memory>
    ensures { OnOk result (value.new.items ≡ unquoted false inside.now) }
{
    value.clear();
    let mut quoted = false;
    for byte in inside {
        if quoted {
            quoted = false;
            value.push(*byte)?;
            continue;
        }
        if *byte == b'\\' {
            quoted = true;
            continue;
        }
        value.push(*byte)?;
    }
    Ok(())
}
