// One part of a chain, in a sample that is not refused.
ghost use Rattle.std.specs.Prelude.{◌≤◌, length, true, ◌≡◌};
ghost use Rattle.rows.specs.Step.{Moves, moved_part};
ghost use Rattle.chip.specs.State.{widths};

use chip::state::State;
use counts::part::Part;
use pins::record::Pins;

// Its words stand from `base` on.
pub fn move_part(part: Part, p: Pins, s: State, base: usize, memory: &mut [u32]) -> State
    requires { (base ≤ length memory.old) × (widths part s ≡ true) }
    ensures { Moves (moved_part part p s base memory.old) result memory.new }
{
    if chip::quiet::is_quiet(p, s) {
        return chip::quiet::hold(p, s);
    }
    let own = &mut memory[base..];
    let sampled = fifo::sample::take(part, p, s, own);
    sampled.state
}
