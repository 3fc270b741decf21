// Numbers in decimal digits, and bytes in two hexadecimal ones.
ghost use Rattle.std.specs.Prelude.{◌+◌, ◌<◌, ◌≤◌, length, ◌≡◌};
ghost use Rattle.text.specs.Digits.{PutsDecimal, hex_digit, put_hex};

use super::bytes::{put_byte, put_text};

// What comes back is the place after it.
pub fn put_decimal(room: &mut [u8], at: usize, value: u64) -> usize
    requires { at + 20 ≤ length room.old }
    ensures { (result ≤ at + 20) × PutsDecimal room.old at value room.new result }
{
    let mut digits = [0u8; 20];
    let count = io::decimal(value, &mut digits);
    put_text(room, at, &digits[..count])
}

#[tactic(auto, unfolding(crate::specs::Digits::put_hex))]
pub fn put_hex(room: &mut [u8], at: usize, byte: u8)
    requires { at + 2 ≤ length room.old }
    ensures { room.new ≡ put_hex room.old at byte }
{
    put_byte(room, at, hex_digit(byte / 16));
    put_byte(room, at + 1, hex_digit(byte % 16));
}

// By hand: `char::from_digit` gives small letters, and nothing is promised of what `write!` leaves in a lent room.
fn hex_digit(value: u8) -> u8
    requires { value < 16 }
    ensures { result ≡ hex_digit value }
{
    if value < 10 {
        b'0' + value
    } else {
        b'A' + (value - 10)
    }
}
