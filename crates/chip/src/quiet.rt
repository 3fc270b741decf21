// A sample outside reset in which no clock rises: it takes the short way.
ghost use Rattle.chip.specs.Quiet.{clock_rises, held, quiet};
ghost use Rattle.std.specs.Prelude.{◌≡◌};

use super::enables::Enables;
use super::state::State;
use pins::record::Pins;

pub fn clock_rises(p: Pins, s: State) -> bool
    ensures { result ≡ clock_rises p s }
{
    sides::clocks::write_rises(p, s.write) | sides::clocks::read_rises(p, s.read)
}

#[tactic(auto, unfolding(crate::specs::Quiet::quiet))]
pub fn is_quiet(p: Pins, s: State) -> bool
    ensures { result ≡ quiet p s }
{
    p.mrs & p.prs & !clock_rises(p, s)
}

#[tactic(auto, unfolding(crate::specs::Quiet::held))]
pub fn hold(p: Pins, s: State) -> State
    ensures { result ≡ held p s }
{
    let enables = super::enables::enables_after(p, s);
    State {
        write: sides::write::hold(p.wclk, s.write.latest, s.write.view, s.write),
        read: sides::read::hold(p.rclk, s.read.latest, s.read),
        enables: Enables {
            rt: enables.rt,
            ren: enables.ren,
            wen: enables.wen,
            clean: enables.clean,
        },
        ..s
    }
}
