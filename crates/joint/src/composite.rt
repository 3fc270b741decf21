// The composite flags of two parts side by side.
ghost use Rattle.joint.specs.Composite.{Composes, ModeAfter, is_odd, level};
ghost use Rattle.std.specs.Prelude.{◌≡◌};

use sides::read::Mode;

// `ff` is the level of the composite FF or IR, `ef` that of EF or OR.
#[derive(Clone, Copy)]
pub struct Composite {
    pub ff: bool,
    pub ef: bool,
}

#[tactic(auto, unfolding(crate::specs::Composite::composite_of))]
pub fn compose(mode: Mode, left: u32, right: u32) -> Composite
    ensures { Composes mode left right result }
{
    Composite {
        ff: level_of(mode, left >> 23, right >> 23),
        ef: level_of(mode, left >> 22, right >> 22),
    }
}

// Each answer comes shifted so that the flag is its lowest bit.
fn level_of(mode: Mode, left: u32, right: u32) -> bool
    ensures { result ≡ level mode (is_odd left) (is_odd right) }
{
    let left_high = left % 2 == 1;
    let right_high = right % 2 == 1;
    match mode {
        Mode::Standard => left_high & right_high,
        Mode::Fwft { untaken: _ } => left_high | right_high,
    }
}

// The mode that a sample leaves, by either of its records: for a reader of answers, who has no state.
pub fn mode_after(mode: Mode, record: u32) -> Mode
    ensures { ModeAfter mode «record» result }
{
    let p = pins::record::decode(record);
    if p.mrs {
        mode
    } else {
        chip::reset::select_mode(p.fwft)
    }
}
