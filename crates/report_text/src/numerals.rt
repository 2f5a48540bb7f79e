//! How addresses are written.
ghost use Rattle.std.specs.Prelude.{◌≡◌, ◌<◌, false};
ghost use Rattle.std.specs.Fmt.{digits, digit_glyph};
ghost use Rattle.report_text.specs.Numerals.{padded};

/// The hexadecimal digits.
static DIGITS: [u8; 16] = *b"0123456789abcdef";

/// The hexadecimal digit of a number below 16.
fn hex_digit(n: u64) -> u8
    requires { n < 16 }
    ensures { result ≡ digit_glyph false n }
{
    DIGITS[n as usize]
}

/// All 16 hexadecimal digits of a number.
pub fn hex_digits(number: u64) -> [u8; 16]
    ensures { result ≡ padded 16 (digits 16 false number) }
{
    let mut all = [b'0'; 16];
    let mut rest = number;
    for i in (0..16).rev() {
        all[i] = hex_digit(rest % 16);
        rest /= 16;
    }
    all
}
