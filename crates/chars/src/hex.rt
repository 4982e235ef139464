//! Bytes in hexadecimal digits.
ghost use Rattle.std.specs.Prelude.{◌≡◌, ◌/◌, ◌%◌, ◌<◌};
ghost use Rattle.chars.specs.Hex.{hex_digit};

// A number below 16 as a capital digit.
fn hex_digit(value: u8) -> u8
    requires { value < 16 }
    ensures { result ≡ hex_digit value }
{
    if value < 10 {
        b'0' + value
    } else {
        b'A' - 10 + value
    }
}

/// The two capital digits of a byte, the higher first.
pub fn hex_digits(byte: u8) -> (u8, u8)
    ensures high { result.0 ≡ hex_digit (byte / 16) }
    ensures low { result.1 ≡ hex_digit (byte % 16) }
{
    (hex_digit(byte / 16), hex_digit(byte % 16))
}
