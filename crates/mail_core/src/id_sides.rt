//! The two sides of a msg-id (RFC 5322 section 3.6.4).
ghost use Rattle.std.specs.Prelude.{◌≡◌, ◌+◌, ◌-◌, ◌<◌, ◌≤◌, length, MatchOption, Some, None, take, drop};
ghost use Rattle.mail_core.specs.MsgIds.{nonempty_id_right, sides_of, is_id_left_byte, is_id_right_byte};

/// Whether a byte may stand right of the last `@`.
#[tactic(auto, unfolding(crate::specs::MsgIds::is_id_right_byte))]
fn right_byte(byte: u8) -> bool
    ensures { result ≡ is_id_right_byte byte }
{
    byte >= 33 && byte <= 126 && byte != b'<' && byte != b'>' && byte != b'@'
}

/// Whether a byte may stand left of the last `@`.
#[tactic(auto, unfolding(crate::specs::MsgIds::is_id_left_byte))]
fn left_byte(byte: u8) -> bool
    ensures { result ≡ is_id_left_byte byte }
{
    byte >= 33 && byte <= 126 && byte != b'<' && byte != b'>' && byte != b'"'
}

/// The place of the `>` behind the right side that begins here.
pub(crate) fn right_end(text: &[u8], from: usize) -> Option<usize>
    requires { from ≤ length text.now }
    ensures { MatchOption result (nonempty_id_right (drop from text.now) ≡ None)
        (λ end. (from < end) × (end < length text.now)
        × (nonempty_id_right (drop from text.now) ≡ Some (take (end - from) (drop from text.now), drop (end + 1) text.now))) }
{
    let mut at = from;
    while at < text.len() {
        let byte = text[at];
        if !right_byte(byte) {
            if at == from {
                return None;
            }
            if byte != b'>' {
                return None;
            }
            return Some(at);
        }
        at += 1;
    }
    None
}

/// The places of the last `@` and of the `>` of a msg-id without quotes, behind its `<`.
pub(crate) fn divide(text: &[u8], from: usize) -> Option<(usize, usize)>
    requires { from ≤ length text.now }
    ensures { MatchOption result (sides_of (drop from text.now) ≡ None) (λ found. (from ≤ found.0) × (found.0 + 1 < found.1) × (found.1 < length text.now)
        × (sides_of (drop from text.now) ≡ Some (take (found.0 - from) (drop from text.now), take (found.1 - (found.0 + 1)) (drop (found.0 + 1) text.now), drop (found.1 + 1) text.now))) }
{
    let mut at = from;
    while at < text.len() {
        let byte = text[at];
        if !left_byte(byte) {
            return None;
        }
        if byte == b'@' {
            match right_end(text, at + 1) {
                Some(end) => return Some((at, end)),
                None => {}
            }
        }
        at += 1;
    }
    None
}
