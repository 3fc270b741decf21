// Trace sample, its second paragraph: the lines of the chip in a state, as answered.
ghost use Rattle.chip.specs.Answer.{answer_of, ef_level, ff_level, lines_of};
ghost use Rattle.std.specs.Prelude.{◌≡◌};

use super::state::State;
use counts::part::Part;
use pins::answer::Lines;
use pins::record::Pins;
use sides::read::Mode;

#[tactic(auto, unfolding(crate::specs::Answer::answer_of))]
pub fn answer(part: Part, p: Pins, s: State) -> u32
    ensures { result ≡ answer_of part p s }
{
    pins::answer::pack(lines(part, p.oe, s))
}

#[tactic(auto, unfolding(crate::specs::Answer::lines_of))]
pub fn lines(part: Part, oe: bool, s: State) -> Lines
    ensures { result ≡ lines_of part oe s }
{
    let mode = s.read.mode;
    let ff = ff_level(mode, sides::write::is_full(part, s.write));
    let ef = ef_level(mode, sides::read::is_ready(s.read));
    let words = counts::round::words_ahead(s.write.count, s.read.count);
    let table = sides::read::table_of(mode);
    let hf = !views::flags::is_hf_low(table, part, s.offsets.n, s.offsets.m, words);
    let q = offsets::reading::show(s.reading.shows, s.read.output);
    Lines {
        ff,
        ef,
        hf,
        pae: s.read.pae,
        paf: s.write.paf,
        driven: !oe,
        q,
    }
}

fn ff_level(mode: Mode, full: bool) -> bool
    ensures { result ≡ ff_level mode full }
{
    match mode {
        Mode::Standard => !full,
        Mode::Fwft { untaken: _ } => full,
    }
}

fn ef_level(mode: Mode, ready: bool) -> bool
    ensures { result ≡ ef_level mode ready }
{
    match mode {
        Mode::Standard => ready,
        Mode::Fwft { untaken: _ } => !ready,
    }
}
