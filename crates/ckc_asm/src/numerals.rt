//! Registers, numbers, names and bytes as words.
ghost use Rattle.std.specs.Prelude.{◌≡◌, ◌+◌, ◌*◌, ◌^◌, ◌<◌, ◌≤◌, min, ◌||◌, length, IsTrue, IfSome};
ghost use Rattle.std.specs.Char.{digit_value, is_digit};
ghost use Rattle.std.specs.List.{list_all};
ghost use Rattle.ckc_asm.specs.code.Numerals.{numeral_of, number_of, register_of, short_register, long_register, byte_of, is_hexadecimal};
ghost use Rattle.ckc_asm.specs.Spelled.{is_letter, is_name};

/// A number that is out of every range of assembly.
const BEYOND: u64 = 0x100_0000_0000;

/// The number of a register's name.
pub fn register_of(w: &[u8]) -> Option<u8>
    ensures { result ≡ register_of w.now }
{
    if w.len() == 2 {
        short_register(w)
    } else if w.len() == 3 {
        long_register(w)
    } else {
        None
    }
}

fn short_register(w: &[u8]) -> Option<u8>
    requires { length w.now ≡ 2 }
    ensures { result ≡ short_register w.now }
{
    if w[0] == b'x' && is_decimal(w[1]) {
        Some(w[1] - b'0')
    } else {
        None
    }
}

fn long_register(w: &[u8]) -> Option<u8>
    requires { length w.now ≡ 3 }
    ensures { result ≡ long_register w.now }
{
    if w[0] == b'x' && is_decimal(w[1]) && is_decimal(w[2]) {
        let n = 10 * (w[1] - b'0') + (w[2] - b'0');
        if 10 <= n && n < 32 { Some(n) } else { None }
    } else {
        None
    }
}

/// The number that a word is: decimal with an optional `-`, or `0x` and hexadecimal digits.
pub fn number_of(w: &[u8]) -> Option<i64>
    ensures { result ≡ number_of w.now }
{
    if w.len() > 0 && w[0] == b'-' {
        let n = numeral_of(10, &w[1..])?;
        Some(-(n as i64))
    } else if is_hexadecimal(w) {
        let n = numeral_of(16, &w[2..])?;
        Some(n as i64)
    } else {
        let n = numeral_of(10, w)?;
        Some(n as i64)
    }
}

fn is_hexadecimal(w: &[u8]) -> bool
    ensures value { result ≡ is_hexadecimal w.now }
    ensures long { IsTrue result → 2 ≤ length w.now }
{
    w.len() > 1 && w[0] == b'0' && w[1] == b'x'
}

/// What digits stand for, or `BEYOND` if it is more.
fn numeral_of(radix: u32, w: &[u8]) -> Option<u64>
    requires radix { (1 ≤ radix) × (radix ≤ 16) }
    ensures value { result ≡ numeral_of radix w.now }
    ensures small { IfSome result (λ n. n ≤ 2 ^ 40) }
{
    if w.is_empty() {
        return None;
    }
    let mut value = 0;
    for b in w {
        let digit = digit_value(*b);
        if digit >= radix {
            return None;
        }
        value = capped(value * u64::from(radix) + u64::from(digit));
    }
    Some(value)
}

fn capped(n: u64) -> u64
    ensures { result ≡ min n (2 ^ 40) }
{
    if n < BEYOND { n } else { BEYOND }
}

/// The byte that two hexadecimal digits are.
pub fn byte_of(w: &[u8]) -> Option<u8>
    ensures { result ≡ byte_of w.now }
{
    if w.len() != 2 {
        return None;
    }
    let high = digit_value(w[0]);
    let low = digit_value(w[1]);
    if high < 16 && low < 16 {
        Some((16 * high + low) as u8)
    } else {
        None
    }
}

/// What a digit stands for, up to `z`; 36 for any other byte.
fn digit_value(b: u8) -> u32
    ensures value { result ≡ digit_value b }
    ensures small { result ≤ 36 }
{
    match b {
        b'0'..=b'9' => u32::from(b - b'0'),
        b'A'..=b'Z' => u32::from(b - b'A') + 10,
        b'a'..=b'z' => u32::from(b - b'a') + 10,
        _ => 36,
    }
}

fn is_decimal(b: u8) -> bool
    ensures value { result ≡ is_digit b 10 }
    ensures range { IsTrue result → (48 ≤ b) × (b ≤ 57) }
{
    b'0' <= b && b <= b'9'
}

fn is_letter(b: u8) -> bool
    ensures { result ≡ is_letter b }
{
    b'a' <= b && b <= b'z' || b'A' <= b && b <= b'Z' || b == b'_'
}

/// Whether a word is a name: letters, digits and `_`, not begun by a digit.
pub fn is_name(w: &[u8]) -> bool
    ensures { result ≡ is_name w.now }
{
    w.len() > 0 && is_letter(w[0]) && are_letters(w)
}

fn are_letters(w: &[u8]) -> bool
    ensures { result ≡ list_all (λ b. is_letter b || is_digit b 10) w.now }
{
    w.iter().all(|b| is_letter(*b) || is_decimal(*b))
}
