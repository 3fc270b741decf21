// Trace sample, on the clocks: when one rises.
ghost use Rattle.sides.specs.Clocks.{read_rises, rises, write_rises};
ghost use Rattle.std.specs.Prelude.{◌≡◌};

use super::read::ReadSide;
use super::write::WriteSide;
use pins::record::Pins;

#[tactic(auto, unfolding(crate::specs::Clocks::write_rises))]
pub fn write_rises(p: Pins, w: WriteSide) -> bool
    ensures { result ≡ write_rises p w }
{
    is_rise(w.level, p.wclk)
}

#[tactic(auto, unfolding(crate::specs::Clocks::read_rises))]
pub fn read_rises(p: Pins, r: ReadSide) -> bool
    ensures { result ≡ read_rises p r }
{
    is_rise(r.level, p.rclk)
}

fn is_rise(last: bool, level: bool) -> bool
    ensures { result ≡ rises last level }
{
    !last & level
}
