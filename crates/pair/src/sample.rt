// One sample on two records and two lent memories: taken by both parts or by neither.
ghost use Rattle.chip.specs.State.{widths};
ghost use Rattle.fifo.specs.Sample.{is_depth};
ghost use Rattle.fifo.specs.Outcome as fifo;
ghost use Rattle.pair.specs.Outcome.{Refused, sampled_in_numbers};
ghost use Rattle.refusal_kinds.specs.Numbers.{number};
ghost use Rattle.pair.specs.Sample.{Samples, Steps, joined};
ghost use Rattle.pair.specs.Still.{held_both, still_both};
ghost use Rattle.halves.specs.Two.{two};
ghost use Rattle.std.specs.Prelude.{◌&&◌, true, ◌≡◌};

use counts::part::Part;
use halves::state::Halves;
use refusal_kinds::Refusal;

// Taken with both packed answers, or refused.
#[derive(Clone, Copy)]
pub struct Sampled {
    pub outcome: Result<(u32, u32), Refusal>,
    pub state: Halves,
}

pub fn sample(
    part: u32,
    left: u32,
    right: u32,
    state: Halves,
    left_memory: &mut [u32],
    right_memory: &mut [u32],
) -> Sampled
    ensures { Samples part (two left right) state (two left_memory.old right_memory.old) (sampled_in_numbers result) (two left_memory.new right_memory.new) }
{
    let looked_up = counts::part::look_up(part);
    let Some(known) = looked_up else {
        return turn_away(Refusal::UnknownPart, state);
    };
    if !are_depth(known, left_memory.len(), right_memory.len()) {
        return turn_away(Refusal::WrongLength, state);
    }
    if !halves::state::passes_test(known, state) {
        return turn_away(Refusal::UnfitState, state);
    }
    step(known, left, right, state, left_memory, right_memory)
}

pub fn are_depth(part: Part, left: usize, right: usize) -> bool
    ensures { result ≡ is_depth part left && is_depth part right }
{
    fifo::sample::is_depth(part, left) & fifo::sample::is_depth(part, right)
}

// Two records once part, memories and state have passed their tests: what a single sample and a run share.
pub fn step(
    part: Part,
    left: u32,
    right: u32,
    state: Halves,
    left_memory: &mut [u32],
    right_memory: &mut [u32],
) -> Sampled
    requires { (widths part state.left ≡ true) × (widths part state.right ≡ true) }
    ensures { Steps part (two left right) state (two left_memory.old right_memory.old) (sampled_in_numbers result) (two left_memory.new right_memory.new) }
{
    if are_still(left, right, state) {
        return hold(part, left, right, state);
    }
    let trials = halves::tried::try_both(part, left, right, state, left_memory, right_memory);
    let by_left = trials.left;
    let by_right = trials.right;
    if let Some(refusal) = joint::refuse::refusal(left, right, by_left.refusal, by_right.refusal) {
        return turn_away(refusal, state);
    }
    let left_given = fifo::sample::give(by_left.advanced, left_memory);
    let right_given = fifo::sample::give(by_right.advanced, right_memory);
    join(left_given, right_given)
}

// Such records are never refused and move only what is remembered of the pins: neither the refusals nor the memories need be looked at.
#[tactic(auto, unfolding(crate::specs::Still::still_both))]
fn are_still(left: u32, right: u32, state: Halves) -> bool
    ensures { result ≡ still_both (two left right) state }
{
    joint::refuse::is_same_pins(left, right)
        & fifo::sample::is_still(left, state.left)
        & fifo::sample::is_still(right, state.right)
}

fn hold(part: Part, left: u32, right: u32, state: Halves) -> Sampled
    ensures { sampled_in_numbers result ≡ held_both part (two left right) state }
{
    let by_left = fifo::sample::hold(part, pins::record::decode(left), state.left);
    let by_right = fifo::sample::hold(part, pins::record::decode(right), state.right);
    join(by_left, by_right)
}

fn join(left: fifo::sample::Sampled, right: fifo::sample::Sampled) -> Sampled
    ensures { sampled_in_numbers result ≡ joined (fifo.sampled_in_numbers left) (fifo.sampled_in_numbers right) }
{
    let left_answer = fifo::outcome::answer_of(left.outcome);
    let right_answer = fifo::outcome::answer_of(right.outcome);
    Sampled {
        outcome: Ok((left_answer, right_answer)),
        state: Halves {
            left: left.state,
            right: right.state,
        },
    }
}

fn turn_away(refusal: Refusal, state: Halves) -> Sampled
    ensures { sampled_in_numbers result ≡ record { outcome = Refused (number refusal); state = state } }
{
    Sampled {
        outcome: Err(refusal),
        state,
    }
}
