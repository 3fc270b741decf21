// The two sides, RCLK rise in both timing modes; and Retransmit on the read side.
ghost use Rattle.sides.specs.Clocks.{read_rises};
ghost use Rattle.sides.specs.Held.{held_read};
ghost use Rattle.sides.specs.Read.{delivers, delivers_by, mode_after, read_after, reads, ready, ready_by, register_after, retransmits, sees_word, table_of};
ghost use Rattle.std.specs.Prelude.{true, ◌≡◌};

use super::write::WriteSide;
use counts::choice::pick;
use counts::part::Part;
use counts::round::{ReadCount, WriteCount};
use pins::record::Pins;
use views::retransmit::Setup;
use views::tables::Table;

// Timing modes. In FWFT the output register may hold a word that no read has taken yet; in Standard a word is taken as
// it is delivered.
#[derive(Clone, Copy, Debug, PartialEq, Eq)]
pub enum Mode {
    Standard,
    Fwft { untaken: bool },
}

// `level` is that of RCLK, `pae` that of PAE; `output` is the output register.
// The mode stands apart from `setup` and `pae`: beside them its bytes would be packed with theirs, to be taken apart in every sample.
#[derive(Clone, Copy, Debug, PartialEq, Eq)]
pub struct ReadSide {
    pub level: bool,
    pub count: ReadCount,
    pub mode: Mode,
    pub first: WriteCount,
    pub second: WriteCount,
    pub latest: Option<WriteCount>,
    pub setup: Setup,
    pub pae: bool,
    pub output: u32,
}

#[tactic(auto, unfolding(crate::specs::Read::retransmits))]
pub fn is_retransmit(p: Pins, r: ReadSide) -> bool
    ensures { result ≡ retransmits p r }
{
    super::clocks::read_rises(p, r) & !p.rt
}

#[tactic(auto, unfolding(crate::specs::Read::ready))]
pub fn is_ready(r: ReadSide) -> bool
    ensures { result ≡ ready r }
{
    ready_by(r.mode, sees_word(r))
}

#[tactic(auto, unfolding(crate::specs::Read::reads))]
fn is_read(p: Pins, r: ReadSide) -> bool
    ensures { result ≡ reads p r }
{
    super::clocks::read_rises(p, r) & p.ld & !p.ren & p.rt & is_ready(r)
}

#[tactic(auto, unfolding(crate::specs::Read::delivers))]
fn is_delivered(p: Pins, r: ReadSide) -> bool
    ensures { result ≡ delivers p r }
{
    deliver_by(
        r.mode,
        super::clocks::read_rises(p, r) & p.rt & sees_word(r),
        is_read(p, r),
    )
}

// The part and `m` bound rows of PAE's table; which rows there are changes no level (`pae_by_table_lem` of views).
#[tactic(auto, using(crate::specs::HeldLaws::read_held))]
pub fn read_after(
    part: Part,
    n: u16,
    m: u16,
    p: Pins,
    fetched: u32,
    w: WriteSide,
    r: ReadSide,
) -> ReadSide
    ensures { result ≡ read_after n p fetched w r }
{
    if super::clocks::read_rises(p, r) {
        rise(part, n, m, p, fetched, w, r)
    } else {
        let other = super::clocks::write_rises(p, w);
        hold(
            p.rclk,
            views::stages::remember(false, other, w.count, r.latest),
            r,
        )
    }
}

#[tactic(auto, unfolding(crate::specs::Read::read_after, crate::specs::Read::read_count_after, crate::specs::Read::second_after_read))]
fn rise(part: Part, n: u16, m: u16, p: Pins, fetched: u32, w: WriteSide, r: ReadSide) -> ReadSide
    requires { read_rises p r ≡ true }
    ensures { result ≡ read_after n p fetched w r }
{
    let retransmits = is_retransmit(p, r);
    let delivered = is_delivered(p, r);
    let moved = counts::round::next(delivered, r.count);
    let count = pick(retransmits, ReadCount(0), moved);
    let other = super::clocks::write_rises(p, w);
    let setup = views::retransmit::setup_after(true, p.rt, r.setup);
    let second = r.first;
    let words = counts::round::words_ahead(second, count);
    let low = views::flags::is_pae_low(table_of(r.mode), part, n, m, words);
    ReadSide {
        level: p.rclk,
        count,
        first: views::stages::take(p.skew.read, r.latest, w.count),
        second,
        latest: views::stages::remember(true, other, w.count, r.latest),
        setup,
        pae: pick(views::retransmit::is_over(setup), !low, r.pae),
        mode: mode_after(r.mode, retransmits, delivered, is_read(p, r)),
        output: register_after(delivered, fetched, r.output),
    }
}

// Where RCLK does not rise.
pub fn hold(level: bool, latest: Option<WriteCount>, r: ReadSide) -> ReadSide
    ensures { result ≡ held_read level latest r }
{
    ReadSide { level, latest, ..r }
}

pub fn table_of(mode: Mode) -> Table
    ensures { result ≡ table_of mode }
{
    match mode {
        Mode::Standard => Table::One,
        Mode::Fwft { untaken: _ } => Table::Two,
    }
}

#[tactic(auto, unfolding(crate::specs::Read::sees_word))]
fn sees_word(r: ReadSide) -> bool
    ensures { result ≡ sees_word r }
{
    views::retransmit::is_over(r.setup) & (r.second.0 != r.count.0)
}

fn ready_by(mode: Mode, seen: bool) -> bool
    ensures { result ≡ ready_by mode seen }
{
    match mode {
        Mode::Standard => seen,
        Mode::Fwft { untaken } => untaken,
    }
}

fn deliver_by(mode: Mode, may: bool, read: bool) -> bool
    ensures { result ≡ delivers_by mode may read }
{
    match mode {
        Mode::Standard => read,
        Mode::Fwft { untaken } => may & !(untaken & !read),
    }
}

fn mode_after(mode: Mode, retransmits: bool, delivered: bool, read: bool) -> Mode
    ensures { result ≡ mode_after mode retransmits delivered read }
{
    match mode {
        Mode::Standard => Mode::Standard,
        Mode::Fwft { untaken } => Mode::Fwft {
            untaken: !retransmits & (delivered | untaken & !read),
        },
    }
}

fn register_after(delivered: bool, fetched: u32, output: u32) -> u32
    ensures { result ≡ register_after delivered fetched output }
{
    if delivered {
        pins::record::low_word(fetched)
    } else {
        output
    }
}
