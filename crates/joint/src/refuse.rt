// What is turned away of two records for two parts side by side: 11, and then each part's own number.
ghost use Rattle.joint.specs.Refuse.{numbered, same_pins};
ghost use Rattle.std.specs.Prelude.{◌≡◌};

use refusal_kinds::{Refusal, Told};

// The first refusal that applies, by what each half's own table gives.
pub fn refusal<T: Told>(left: u32, right: u32, by_left: T, by_right: T) -> T
    ensures { T.told result ≡ numbered (same_pins left right) (T.told by_left) (T.told by_right) }
{
    if is_same_pins(left, right) {
        if by_left.to_number() == 0 {
            by_right
        } else {
            by_left
        }
    } else {
        T::of_refusal(Refusal::PinsDiffer)
    }
}

// D and the marks stand below bit 21, every other pin from there on.
pub fn is_same_pins(left: u32, right: u32) -> bool
    ensures { result ≡ same_pins left right }
{
    left / 2097152 == right / 2097152
}
