// Order 4: every part of a chain is judged, by the row before the sample.
ghost use Rattle.std.specs.Prelude.{◌+◌, ◌<◌, ◌≤◌, eqb, false, ◌≡◌};
ghost use Rattle.rows.specs.Step.{chain_refusal, passes_part, passes_to};
ghost use Rattle.chip.specs.Answer.{lines_of};
ghost use Rattle.links.specs.Record.{marks_of};
ghost use Rattle.links.specs.Wire.{wired};
ghost use Rattle.refusal_kinds.specs.Numbers.{number_of};

use super::row::Row;
use chip::state::State;
use counts::part::Part;
use links::record::Links;
use pins::answer::Lines;
use pins::record::Pins;
use refusal_kinds::Refusal;

#[tactic(auto, unfolding(crate::specs::Step::all_to))]
pub fn pass_test(part: Part, row: Row) -> bool
    requires { row.count ≤ 8 }
    ensures { result ≡ passes_to part row row.count }
{
    let mut pass = true;
    for i in 0..row.count {
        pass = pass & passes_test(part, row.states[i]);
    }
    pass
}

#[tactic(auto, unfolding(crate::specs::Step::passes_part))]
fn passes_test(part: Part, s: State) -> bool
    ensures { result ≡ passes_part part s }
{
    chip::state::passes_test(part, s) & (!s.started | chip::state::is_fwft(s))
}

// The first refusal that applies to a record: 4, 5 or 14 of the record as a whole, and else the least that a part gives.
pub fn refusal(part: Part, x: Links, row: Row) -> Option<Refusal>
    requires { row.count ≤ 8 }
    ensures { number_of result ≡ chain_refusal part x row }
{
    let count = row.count;
    let mut earlier = chip::answer::lines(part, false, row.states[0]);
    let mut started = true;
    let mut least: Option<Refusal> = None;
    for i in 0..count {
        let s = row.states[i];
        let later = row.states[place_after(i)];
        let p = wire_part(part, x, count, i, earlier, later);
        least = links::refuse::least(least, refusals::refuse::refusal(part, p, s));
        started = started & s.started;
        earlier = chip::answer::lines(part, false, s);
    }
    links::refuse::refusal(x, started, least)
}

// The last place of a row has none after it; which state stands for it does not matter there.
pub fn place_after(i: usize) -> usize
    ensures { (result < 8) × (i < 7 → result ≡ i + 1) }
{
    if i < 7 { i + 1 } else { 7 }
}

pub fn wire_part(part: Part, x: Links, count: usize, i: usize, earlier: Lines, later: State) -> Pins
    requires { i < 8 }
    ensures { result ≡ wired x (marks_of x.more i) (eqb i 0) (eqb (i + 1) count) earlier (lines_of part false later) }
{
    let marks = links::record::marks_of(x.more, i);
    let shown = chip::answer::lines(part, false, later);
    links::wire::wire(x, marks, i == 0, i + 1 == count, earlier, shown)
}
