// The two sides, WCLK rise; and Retransmit as the write side sees it.
ghost use Rattle.counts.specs.Part.{depth_of};
ghost use Rattle.sides.specs.Clocks.{write_rises};
ghost use Rattle.sides.specs.Held.{held_write};
ghost use Rattle.sides.specs.Write.{accepted_more, accepted_none, accepts, full, takes_after, write_after};
ghost use Rattle.std.specs.Prelude.{true, ◌≡◌};

use super::read::ReadSide;
use counts::part::Part;
use counts::round::{ReadCount, WriteCount};
use pins::record::Pins;
use views::retransmit::View;

// `level` is that of WCLK, `paf` that of PAF; `wrapped` says that a word since the last reset took the count round its width.
// No two counts adjoin: a reset's zeros would make one wide number of them, to be taken apart in every sample.
#[derive(Clone, Copy, Debug, PartialEq, Eq)]
pub struct WriteSide {
    pub level: bool,
    pub count: WriteCount,
    pub view: View,
    pub first: ReadCount,
    pub paf: bool,
    pub second: ReadCount,
    pub wrapped: bool,
    pub latest: Option<ReadCount>,
}

#[tactic(auto, unfolding(crate::specs::Write::full))]
pub fn is_full(part: Part, w: WriteSide) -> bool
    ensures { result ≡ full (depth_of part) w }
{
    views::flags::is_full_at(part, counts::round::words_ahead(w.count, w.second))
}

#[tactic(auto, unfolding(crate::specs::Write::accepts))]
pub fn accepts_word(part: Part, p: Pins, w: WriteSide) -> bool
    ensures { result ≡ accepts (depth_of part) p w }
{
    super::clocks::write_rises(p, w) & p.ld & !p.wen & !is_full(part, w)
}

pub fn accepted_none(w: WriteSide) -> bool
    ensures { result ≡ accepted_none w }
{
    !w.wrapped & (w.count.0 == 0)
}

pub fn accepted_more(limit: u16, w: WriteSide) -> bool
    ensures { result ≡ accepted_more limit w }
{
    w.wrapped | (limit < w.count.0)
}

#[tactic(auto, unfolding(crate::specs::Write::takes_after))]
fn takes_after(p: Pins, r: ReadSide, w: WriteSide) -> bool
    ensures { result ≡ takes_after p r w }
{
    !(views::stages::looks_past(p.skew.write, w.latest)
        & views::retransmit::has_just_begun(r.setup))
}

// `n` bounds rows of PAF's table; which rows there are changes no level (`paf_by_table_lem` of views).
#[tactic(auto, using(crate::specs::HeldLaws::write_held))]
pub fn write_after(part: Part, n: u16, m: u16, p: Pins, r: ReadSide, w: WriteSide) -> WriteSide
    ensures { result ≡ write_after (depth_of part) m p r w }
{
    if super::clocks::write_rises(p, w) {
        rise(part, n, m, p, r, w)
    } else {
        let other = super::clocks::read_rises(p, r);
        let remembered = views::stages::remember(false, other, r.count, w.latest);
        let retransmits = super::read::is_retransmit(p, r);
        let seen = views::retransmit::view_after(retransmits, false, false, w.view);
        hold(p.wclk, remembered, seen, w)
    }
}

#[tactic(auto, unfolding(crate::specs::Write::write_after, crate::specs::Write::second_after_write, crate::specs::Write::write_count_after))]
fn rise(part: Part, n: u16, m: u16, p: Pins, r: ReadSide, w: WriteSide) -> WriteSide
    requires { write_rises p w ≡ true }
    ensures { result ≡ write_after (depth_of part) m p r w }
{
    let accepted = accepts_word(part, p, w);
    let count = counts::round::next(accepted, w.count);
    let wraps = counts::round::is_last_of_width(w.count);
    let other = super::clocks::read_rises(p, r);
    let retransmits = super::read::is_retransmit(p, r);
    let second = w.first;
    let words = counts::round::words_ahead(count, second);
    let table = super::read::table_of(r.mode);
    WriteSide {
        level: p.wclk,
        count,
        wrapped: w.wrapped | accepted & wraps,
        first: views::stages::take(p.skew.write, w.latest, r.count),
        second,
        latest: views::stages::remember(true, other, r.count, w.latest),
        view: views::retransmit::view_after(retransmits, true, takes_after(p, r, w), w.view),
        paf: !views::flags::is_paf_low(table, part, n, m, words),
    }
}

// Where WCLK does not rise.
pub fn hold(level: bool, latest: Option<ReadCount>, view: View, w: WriteSide) -> WriteSide
    ensures { result ≡ held_write level latest view w }
{
    WriteSide {
        level,
        latest,
        view,
        ..w
    }
}
