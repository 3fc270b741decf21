// What is turned away: 5 to 10, with 8 for an unclean fall of RT too, and 12 for data that had not settled.
ghost use Rattle.refusals.specs.Free.{free};
ghost use Rattle.refusals.specs.Refuse.{Refuses, asks_unselected, from_six, refuses_eight, refuses_five, refuses_nine, refuses_seven, refuses_six, refuses_ten, refuses_twelve, retransmit_most, several_low};
ghost use Rattle.counts.specs.Part.{depth_of};
ghost use Rattle.refusal_kinds.specs.Numbers.{number, number_of};
ghost use Rattle.std.specs.Prelude.{cond, ◌≡◌};

use chip::state::State;
use counts::part::Part;
use offsets::registers::Method;
use pins::record::Pins;
use refusal_kinds::Refusal;
use sides::read::Mode;

pub fn refusal(part: Part, p: Pins, s: State) -> Option<Refusal>
    ensures { Refuses part p s (number_of result) }
{
    if is_free(p, s) {
        None
    } else {
        first_refusal(part, p, s)
    }
}

// Most samples are free: one look for them, in place of one for each row.
#[tactic(auto, unfolding(crate::specs::Free::free))]
fn is_free(p: Pins, s: State) -> bool
    ensures { result ≡ free p s }
{
    let write = s.write;
    let view = write.view;
    s.started & p.ld & p.rt & !p.unsettled & views::retransmit::is_seen(view)
}

#[tactic(auto, unfolding(crate::specs::Refuse::refusal_of))]
fn first_refusal(part: Part, p: Pins, s: State) -> Option<Refusal>
    ensures { Refuses part p s (number_of result) }
{
    if refuses_five(p, s) {
        Some(Refusal::NoMasterReset)
    } else if p.mrs & p.prs {
        refuse_from_six(part, p, s)
    } else {
        None
    }
}

fn refuse_from_six(part: Part, p: Pins, s: State) -> Option<Refusal>
    ensures { number_of result ≡ from_six part p s }
{
    if refuses_six(p, s) {
        return Some(Refusal::SeveralEnables);
    }
    let seven = refuses_seven(p, s);
    let eight = refuses_eight(p, s);
    let nine = refuses_nine(part, p, s);
    let ten = refuses_ten(p, s);
    let twelve = refuses_twelve(p, s);
    let from_twelve = pick(twelve, Refusal::UnsettledData, None);
    let from_ten = pick(ten, Refusal::WriteBeforeRetransmitSeen, from_twelve);
    let from_nine = pick(nine, Refusal::RetransmitTooFewOrMany, from_ten);
    let from_eight = pick(eight, Refusal::UncleanRetransmit, from_nine);
    pick(seven, Refusal::MethodNotSelected, from_eight)
}

// No row after the first branches: only so does the compiler unroll the loop over the two parts of a pair.
fn pick(applies: bool, refusal: Refusal, otherwise: Option<Refusal>) -> Option<Refusal>
    ensures { number_of result ≡ cond applies (number refusal) (number_of otherwise) }
{
    if applies { Some(refusal) } else { otherwise }
}

fn refuses_five(p: Pins, s: State) -> bool
    ensures { result ≡ refuses_five p s }
{
    !s.started & p.mrs
}

#[tactic(auto, unfolding(crate::specs::Refuse::refuses_six))]
fn refuses_six(p: Pins, s: State) -> bool
    ensures { result ≡ refuses_six p s }
{
    chip::quiet::clock_rises(p, s) & !p.ld & several_low(p.wen, p.ren, p.sen)
}

#[tactic(auto, unfolding(crate::specs::Refuse::refuses_seven))]
fn refuses_seven(p: Pins, s: State) -> bool
    ensures { result ≡ refuses_seven p s }
{
    let offsets = s.offsets;
    let method = offsets.method;
    sides::clocks::write_rises(p, s.write) & !p.ld & asks_unselected(method, p)
}

#[tactic(auto, unfolding(crate::specs::Refuse::refuses_eight))]
fn refuses_eight(p: Pins, s: State) -> bool
    ensures { result ≡ refuses_eight p s }
{
    sides::read::is_retransmit(p, s.read)
        & (!p.ren | !p.wen | !chip::enables::is_last_fall_clean(p, s))
}

#[tactic(auto, unfolding(crate::specs::Refuse::refuses_nine))]
fn refuses_nine(part: Part, p: Pins, s: State) -> bool
    ensures { result ≡ refuses_nine (depth_of part) p s }
{
    let read = s.read;
    let mode = read.mode;
    let most = retransmit_most(part, mode);
    sides::read::is_retransmit(p, s.read)
        & (sides::write::accepted_none(s.write) | sides::write::accepted_more(most, s.write))
}

#[tactic(auto, unfolding(crate::specs::Refuse::refuses_ten))]
fn refuses_ten(p: Pins, s: State) -> bool
    ensures { result ≡ refuses_ten p s }
{
    let write = s.write;
    let view = write.view;
    sides::clocks::write_rises(p, s.write) & p.ld & !p.wen & !views::retransmit::is_seen(view)
}

// A write with LD HIGH, a parallel load with LD LOW.
#[tactic(auto, unfolding(crate::specs::Refuse::refuses_twelve))]
fn refuses_twelve(p: Pins, s: State) -> bool
    ensures { result ≡ refuses_twelve p s }
{
    sides::clocks::write_rises(p, s.write) & !p.wen & p.unsettled
}

fn several_low(wen: bool, ren: bool, sen: bool) -> bool
    ensures { result ≡ several_low wen ren sen }
{
    !wen & !ren | !wen & !sen | !ren & !sen
}

fn asks_unselected(method: Method, p: Pins) -> bool
    ensures { result ≡ asks_unselected method p }
{
    match method {
        Method::Parallel => !p.sen,
        Method::Serial => !p.wen,
    }
}

fn retransmit_most(part: Part, mode: Mode) -> u16
    ensures { result ≡ retransmit_most (depth_of part) mode }
{
    let depth = counts::part::depth(part);
    match mode {
        Mode::Standard => depth - 2,
        Mode::Fwft { untaken: _ } => depth - 1,
    }
}
