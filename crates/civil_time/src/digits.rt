//! Decimal digits, one, two and four of them, to numbers and back.
ghost use Rattle.std.specs.Prelude.{◌≡◌, ◌<◌, ◌≤◌, IfSome};
ghost use Rattle.civil_time.specs.Digits.{decimal_digit_value, two_digit_number, four_digit_number, parsed_one_or_two_digits, parsed_two_digits, parsed_four_digits, as_two_digits};

/// The number that a digit writes. `None` where it is no ASCII digit.
pub fn digit(a: u8) -> Option<u8>
    ensures value { result ≡ decimal_digit_value a }
    ensures small { IfSome result (λ n. n ≤ 9) }
{
    if a.is_ascii_digit() {
        return Some(a - b'0');
    }
    None
}

/// The number that two digits write. `None` where one is no ASCII digit.
pub fn two_digits(a: u8, b: u8) -> Option<u8>
    ensures value { result ≡ two_digit_number a b }
    ensures small { IfSome result (λ n. n ≤ 99) }
{
    if a.is_ascii_digit() && b.is_ascii_digit() {
        return Some(10 * (a - b'0') + (b - b'0'));
    }
    None
}

/// The number that four digits write. `None` where one is no ASCII digit.
pub fn four_digits(a: u8, b: u8, c: u8, d: u8) -> Option<u16>
    ensures value { result ≡ four_digit_number a b c d }
    ensures small { IfSome result (λ n. n ≤ 9999) }
{
    let high = two_digits(a, b)?;
    let low = two_digits(c, d)?;
    Some(100 * high as u16 + low as u16)
}

/// A number of one digit or two. `None` for any other text.
pub fn read_one_or_two(digits: &[u8]) -> Option<u8>
    ensures { result ≡ parsed_one_or_two_digits digits.now }
{
    match digits {
        [a] => digit(*a),
        _ => read_two(digits),
    }
}

/// A number of two digits. `None` for any other text.
pub fn read_two(digits: &[u8]) -> Option<u8>
    ensures { result ≡ parsed_two_digits digits.now }
{
    match digits {
        [a, b] => two_digits(*a, *b),
        _ => None,
    }
}

/// A number of four digits. `None` for any other text.
pub fn read_four(digits: &[u8]) -> Option<u16>
    ensures { result ≡ parsed_four_digits digits.now }
{
    match digits {
        [a, b, c, d] => four_digits(*a, *b, *c, *d),
        _ => None,
    }
}

/// A number below 100 in two digits.
pub fn digit_pair(n: u32) -> [u8; 2]
    requires { n < 100 }
    ensures { result ≡ as_two_digits n }
{
    [(48 + n / 10) as u8, (48 + n % 10) as u8]
}
