// The state between two samples, and the test of What is turned away, 3.
ghost use Rattle.chip.specs.ResetLaws.{is_fwft};
ghost use Rattle.chip.specs.State.{Tested, in_reach, widths};
ghost use Rattle.counts.specs.Part.{depth_of};
ghost use Rattle.std.specs.Prelude.{◌≡◌};

use super::enables::Enables;
use counts::part::Part;
use offsets::reading::Reading;
use offsets::registers::Offsets;
use sides::read::{Mode, ReadSide};
use sides::write::WriteSide;

// `started` says that there has been a Master Reset.
#[derive(Clone, Copy, Debug, PartialEq, Eq)]
pub struct State {
    pub started: bool,
    pub write: WriteSide,
    pub read: ReadSide,
    pub offsets: Offsets,
    pub reading: Reading,
    pub enables: Enables,
}

#[tactic(auto, unfolding(crate::specs::State::passes))]
pub fn passes_test(part: Part, s: State) -> bool
    ensures { Tested part s result }
{
    fits_widths(part, s) & is_in_reach(part, s)
}

#[tactic(auto, unfolding(crate::specs::State::widths))]
fn fits_widths(part: Part, s: State) -> bool
    ensures { result ≡ widths part s }
{
    offsets::registers::offsets_fit(part, s.offsets)
        & offsets::reading::shown_fits(part, s.reading.shows)
        & pins::record::is_word(s.read.output)
}

#[tactic(auto, unfolding(crate::specs::State::in_reach))]
fn is_in_reach(part: Part, s: State) -> bool
    ensures { result ≡ in_reach (depth_of part) s }
{
    let depth = counts::part::depth(part);
    let count = s.write.count;
    let held = counts::round::words_ahead(count, s.read.count);
    let second_behind = counts::round::words_behind(count, s.read.second);
    (held <= depth)
        & (counts::round::words_ahead(count, s.write.first) <= depth)
        & (counts::round::words_ahead(count, s.write.second) <= depth)
        & (counts::round::words_behind(count, s.read.first) <= depth)
        & (second_behind <= depth)
        & (second_behind <= held)
}

pub fn is_fwft(s: State) -> bool
    ensures { result ≡ is_fwft s.read.mode }
{
    matches!(s.read.mode, Mode::Fwft { .. })
}
