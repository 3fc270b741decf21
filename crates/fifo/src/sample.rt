// One sample over a lent memory.
ghost use Rattle.chip.specs.Answer.{answer_of};
ghost use Rattle.chip.specs.Quiet.{held};
ghost use Rattle.chip.specs.State.{widths};
ghost use Rattle.fifo.specs.Outcome.{Refused, Taken, sampled_in_numbers};
ghost use Rattle.fifo.specs.Sample.{Gives, Samples, Steps, RefusesRecord, is_depth, taken, took};
ghost use Rattle.fifo.specs.Still.{still};
ghost use Rattle.refusal_kinds.specs.Numbers.{number, number_of};
ghost use Rattle.std.specs.Prelude.{true, ◌≡◌};

use chip::advance::Advanced;
use chip::state::State;
use counts::part::Part;
use pins::record::Pins;
use refusal_kinds::Refusal;

// Taken with its packed answer, or refused.
#[derive(Clone, Copy)]
pub struct Sampled {
    pub outcome: Result<u32, Refusal>,
    pub state: State,
}

pub fn sample(part: u32, record: u32, state: State, memory: &mut [u32]) -> Sampled
    ensures { Samples part «record» state memory.old (sampled_in_numbers result) memory.new }
{
    let looked_up = counts::part::look_up(part);
    let Some(known) = looked_up else {
        return turn_away(Refusal::UnknownPart, state);
    };
    if is_depth(known, memory.len()) {
        if chip::state::passes_test(known, state) {
            step(known, record, state, memory)
        } else {
            turn_away(Refusal::UnfitState, state)
        }
    } else {
        turn_away(Refusal::WrongLength, state)
    }
}

// One record once part, memory and state have passed their tests: what a single sample and a run share.
pub fn step(part: Part, record: u32, state: State, memory: &mut [u32]) -> Sampled
    requires { widths part state ≡ true }
    ensures { Steps part «record» state memory.old (sampled_in_numbers result) memory.new }
{
    if is_still(record, state) {
        hold(part, pins::record::decode(record), state)
    } else {
        take_or_turn_away(part, record, state, memory)
    }
}

// Such a record is never refused and moves only what is remembered of the pins: neither the refusals nor the memory need be looked at.
#[tactic(auto, unfolding(crate::specs::Still::still))]
pub fn is_still(record: u32, state: State) -> bool
    ensures { result ≡ still «record» state }
{
    let p = pins::record::decode(record);
    state.started & chip::quiet::is_quiet(p, state)
}

// What such a record gives.
pub fn hold(part: Part, p: Pins, state: State) -> Sampled
    ensures { sampled_in_numbers result ≡ record { outcome = Taken (answer_of part p state); state = held p state } }
{
    let answer = chip::answer::answer(part, p, state);
    let held = chip::quiet::hold(p, state);
    Sampled {
        outcome: Ok(answer),
        state: held,
    }
}

fn take_or_turn_away(part: Part, record: u32, state: State, memory: &mut [u32]) -> Sampled
    requires { widths part state ≡ true }
    ensures { Steps part «record» state memory.old (sampled_in_numbers result) memory.new }
{
    match refuse_record(part, record, state) {
        None => take(part, pins::record::decode(record), state, memory),
        Some(refusal) => turn_away(refusal, state),
    }
}

pub fn is_depth(part: Part, words: usize) -> bool
    ensures { result ≡ is_depth part words }
{
    words == usize::from(counts::part::depth(part))
}

// The first refusal that applies to a record of four bytes: 5 to 10 or 12.
#[tactic(auto, unfolding(crate::specs::Sample::record_refusal))]
pub fn refuse_record(part: Part, record: u32, state: State) -> Option<Refusal>
    ensures { RefusesRecord part «record» state (number_of result) }
{
    refusals::refuse::refusal(part, pins::record::decode(record), state)
}

// What a sample that is not refused gives.
#[tactic(auto, unfolding(crate::specs::Sample::taken))]
pub fn take(part: Part, p: Pins, state: State, memory: &mut [u32]) -> Sampled
    requires { widths part state ≡ true }
    ensures { Gives (taken part p state memory.old) (sampled_in_numbers result) memory.new }
{
    let fetched = super::memory::fetch_for(part, state, memory);
    let advanced = chip::advance::advance(part, p, fetched, state);
    give(advanced, memory)
}

// What comes of an advance: its word stored, its answer and the next state handed back.
pub fn give(advanced: Advanced, memory: &mut [u32]) -> Sampled
    ensures { Gives (took advanced memory.old) (sampled_in_numbers result) memory.new }
{
    let store = advanced.store;
    super::memory::put_away(store, memory);
    let next = advanced.state;
    Sampled {
        outcome: Ok(advanced.answer),
        state: next,
    }
}

fn turn_away(refusal: Refusal, state: State) -> Sampled
    ensures { sampled_in_numbers result ≡ record { outcome = Refused (number refusal); state = state } }
{
    Sampled {
        outcome: Err(refusal),
        state,
    }
}
