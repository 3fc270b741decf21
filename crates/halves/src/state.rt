// The state of two parts side by side, and the test of 3.
ghost use Rattle.halves.specs.State.{PoweredUp, Tested};

use chip::state::State;
use counts::part::Part;

#[derive(Clone, Copy)]
pub struct Halves {
    pub left: State,
    pub right: State,
}

pub fn power_up() -> Halves
    ensures { PoweredUp result }
{
    let left = chip::reset::power_up();
    let right = chip::reset::power_up();
    Halves {
        left: left,
        right: right,
    }
}

#[tactic(auto, unfolding(crate::specs::State::passes_both))]
pub fn passes_test(part: Part, state: Halves) -> bool
    ensures { Tested part state result }
{
    let left = chip::state::is_fwft(state.left);
    let right = chip::state::is_fwft(state.right);
    chip::state::passes_test(part, state.left)
        & chip::state::passes_test(part, state.right)
        & ((left & right) | (!left & !right))
}
