//! The last line of a text.
ghost use Rattle.std.specs.Prelude.{◌≡◌, ◌∷◌, ◌++◌, [], ◌<◌, length, take, drop};
ghost use Rattle.mail_core.specs.Lines.{lines};

use memchr::memrchr;

/// Where the last line begins.
pub fn last_line_start(bytes: &[u8]) -> usize
    requires { 0 < length bytes.now }
    ensures within { result < length bytes.now }
    ensures cuts { lines bytes.now ≡ lines (take result bytes.now) ++ drop result bytes.now ∷ [] }
{
    let (front, _) = bytes.split_at(bytes.len() - 1);
    match memrchr(b'\n', front) {
        Some(at) => at + 1,
        None => 0,
    }
}
