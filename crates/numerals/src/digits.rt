// The state's levels and enums as digits, each a byte, and back. A field-less enum is its own digit.
ghost use Rattle.numerals.specs.Digits.{level_of, mode_digit, mode_of, next_of, number_before, rise_of, setup_of, view_of};
ghost use Rattle.offsets.specs.Registers.{method_of};
ghost use Rattle.std.specs.Prelude.{◌≡◌};

use counts::round::Count;
use offsets::registers::{Method, Next};
use sides::read::Mode;
use views::retransmit::{Setup, View};

pub fn level(digit: u8) -> bool
    ensures { result ≡ level_of digit }
{
    digit % 2 == 1
}

pub fn view(digit: u8) -> View
    ensures { result ≡ view_of digit }
{
    match digit {
        0 => View::Unseen,
        1 => View::Taken,
        _ => View::Seen,
    }
}

pub fn setup(digit: u8) -> Setup
    ensures { result ≡ setup_of digit }
{
    match digit {
        0 => Setup::Over,
        1 => Setup::OneMore,
        _ => Setup::TwoMore,
    }
}

pub fn mode_digit(mode: Mode) -> u8
    ensures { result ≡ mode_digit mode }
{
    match mode {
        Mode::Standard => 0,
        Mode::Fwft { untaken: false } => 1,
        Mode::Fwft { untaken: true } => 2,
    }
}

pub fn mode(digit: u8) -> Mode
    ensures { result ≡ mode_of digit }
{
    if digit == 0 {
        Mode::Standard
    } else {
        Mode::Fwft {
            untaken: digit == 2,
        }
    }
}

pub fn method(serial: bool) -> Method
    ensures { result ≡ method_of serial }
{
    if serial {
        Method::Serial
    } else {
        Method::Parallel
    }
}

pub fn next(second: bool) -> Next
    ensures { result ≡ next_of second }
{
    if second { Next::M } else { Next::N }
}

// The number of a count that may be remembered, 0 where none is; and both put together again.
pub fn before<C: Count>(latest: Option<C>) -> u16
    ensures { result ≡ number_before C.number latest }
{
    match latest {
        None => 0,
        Some(count) => count.to_number(),
    }
}

pub fn rise<C: Count>(rose: bool, number: u16) -> Option<C>
    ensures { result ≡ rise_of C.counting rose number }
{
    if rose {
        Some(C::from_number(number))
    } else {
        None
    }
}
