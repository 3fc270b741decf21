// Resets, and power-up.
ghost use Rattle.chip.specs.Reset.{PoweredUp, cleared, kept_mode, master_reset, partial_reset, selected_mode};
ghost use Rattle.std.specs.Prelude.{◌≡◌};

use super::enables::Enables;
use super::state::State;
use counts::round::{ReadCount, WriteCount};
use offsets::reading::Reading;
use offsets::registers::{Next, Offsets};
use pins::record::Pins;
use sides::read::{Mode, ReadSide};
use sides::write::WriteSide;
use views::retransmit::{Setup, View};

#[tactic(auto, unfolding(crate::specs::Reset::powered_up))]
pub fn power_up() -> State
    ensures { PoweredUp result }
{
    let offsets = offsets::registers::reset_offsets(false);
    let reading = offsets::reading::end_showing(Next::N);
    let enables = Enables {
        rt: true,
        ren: true,
        wen: true,
        clean: true,
    };
    clear(false, true, true, Mode::Standard, offsets, reading, enables)
}

#[tactic(auto, unfolding(crate::specs::Reset::master_reset))]
pub(crate) fn reset_master(p: Pins, s: State) -> State
    ensures { result ≡ master_reset p s }
{
    let mode = select_mode(p.fwft);
    let offsets = offsets::registers::reset_offsets(p.ld);
    let reading = offsets::reading::end_showing(Next::N);
    let enables = super::enables::enables_after(p, s);
    clear(true, p.wclk, p.rclk, mode, offsets, reading, enables)
}

#[tactic(auto, unfolding(crate::specs::Reset::partial_reset))]
pub(crate) fn reset_partial(p: Pins, s: State) -> State
    ensures { result ≡ partial_reset p s }
{
    let mode = keep_mode(s.read.mode);
    let reading = offsets::reading::end_showing(s.reading.next);
    let enables = super::enables::enables_after(p, s);
    clear(s.started, p.wclk, p.rclk, mode, s.offsets, reading, enables)
}

#[tactic(auto, unfolding(crate::specs::Reset::cleared))]
fn clear(
    started: bool,
    wclk: bool,
    rclk: bool,
    mode: Mode,
    offsets: Offsets,
    reading: Reading,
    enables: Enables,
) -> State
    ensures { result ≡ cleared started wclk rclk mode offsets reading enables }
{
    State {
        started,
        write: WriteSide {
            level: wclk,
            count: WriteCount(0),
            wrapped: false,
            first: ReadCount(0),
            second: ReadCount(0),
            latest: None,
            view: View::Seen,
            paf: true,
        },
        read: ReadSide {
            level: rclk,
            count: ReadCount(0),
            first: WriteCount(0),
            second: WriteCount(0),
            latest: None,
            setup: Setup::Over,
            pae: false,
            mode,
            output: 0,
        },
        offsets,
        reading,
        enables: Enables {
            rt: enables.rt,
            ren: enables.ren,
            wen: enables.wen,
            clean: enables.clean,
        },
    }
}

pub fn select_mode(fwft: bool) -> Mode
    ensures { result ≡ selected_mode fwft }
{
    if fwft {
        Mode::Fwft { untaken: false }
    } else {
        Mode::Standard
    }
}

fn keep_mode(mode: Mode) -> Mode
    ensures { result ≡ kept_mode mode }
{
    match mode {
        Mode::Standard => Mode::Standard,
        Mode::Fwft { untaken: _ } => Mode::Fwft { untaken: false },
    }
}
