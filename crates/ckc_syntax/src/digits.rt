ghost use Rattle.std.specs.Prelude.{◌≡◌};
ghost use Rattle.ckc_syntax.specs.Bytes.{is_digit};
ghost use Rattle.ckc_syntax.specs.Digits.{digit_value};

/// Whether a byte is a decimal digit.
pub fn is_digit(b: u8) -> bool
    ensures { result ≡ is_digit b }
{
    b'0' <= b && b <= b'9'
}

/// The value of a hexadecimal digit, and 16 for any other byte.
pub fn digit_value(b: u8) -> u64
    ensures { result ≡ digit_value b }
{
    if is_digit(b) {
        u64::from(b - b'0')
    } else if b'a' <= b && b <= b'f' {
        u64::from(b - b'a' + 10)
    } else if b'A' <= b && b <= b'F' {
        u64::from(b - b'A' + 10)
    } else {
        16
    }
}
