// What each of two parts side by side makes of its record, before either moves.
ghost use Rattle.chip.specs.State.{widths};
ghost use Rattle.halves.specs.Tried.{asking, tried, tried_both};
ghost use Rattle.halves.specs.Two.{two};
ghost use Rattle.std.specs.Prelude.{true, ◌≡◌};

use super::state::Halves;
use chip::advance::Advanced;
use chip::state::State;
use counts::part::Part;
use refusal_kinds::Refusal;

// A record for a part, and what the part makes of it: why it is refused, and what it gives if it is taken.
#[derive(Clone, Copy)]
pub struct Trial {
    pub asked: u32,
    pub fetched: u32,
    pub refusal: Option<Refusal>,
    pub advanced: Advanced,
}

#[derive(Clone, Copy)]
pub struct Trials {
    pub left: Trial,
    pub right: Trial,
}

pub fn try_both(
    part: Part,
    left: u32,
    right: u32,
    state: Halves,
    left_memory: &[u32],
    right_memory: &[u32],
) -> Trials
    requires { (widths part state.left ≡ true) × (widths part state.right ≡ true) }
    ensures { result ≡ tried_both part (two left right) state (two left_memory.now right_memory.now) }
{
    let by_left = ask(part, left, state.left, left_memory);
    let by_right = ask(part, right, state.right, right_memory);
    try_each(part, by_left, by_right)
}

// Nothing is made of it yet: the state is the one before the sample.
fn ask(part: Part, record: u32, state: State, memory: &[u32]) -> Trial
    ensures { result ≡ asking part «record» state memory.now }
{
    let fetched = fifo::memory::fetch_for(part, state, memory);
    Trial {
        asked: record,
        fetched,
        refusal: None,
        advanced: Advanced {
            state,
            answer: 0,
            store: None,
        },
    }
}

// One place calls the single part for both halves: the compiler puts a function so large in line at its only call, and
// where there are two it copies whole states in and out.
fn try_each(part: Part, left: Trial, right: Trial) -> Trials
    requires { (widths part left.advanced.state ≡ true) × (widths part right.advanced.state ≡ true) }
    ensures { result ≡ record { left = tried part left; right = tried part right } }
{
    let mut both = [left, right];
    let mut side: usize = 0;
    while side < 2 {
        let trial = both[side];
        both[side] = try_one(part, trial);
        side += 1;
    }
    let [left, right] = both;
    Trials { left, right }
}

#[tactic(auto, unfolding(crate::specs::Tried::tried), using(refusal_kinds::specs::NumberLaws::by_number))]
fn try_one(part: Part, trial: Trial) -> Trial
    requires { widths part trial.advanced.state ≡ true }
    ensures { result ≡ tried part trial }
{
    let before = trial.advanced;
    let state = before.state;
    let refusal = fifo::sample::refuse_record(part, trial.asked, state);
    let advanced = chip::advance::advance(
        part,
        pins::record::decode(trial.asked),
        trial.fetched,
        state,
    );
    Trial {
        asked: trial.asked,
        fetched: trial.fetched,
        refusal: refusal,
        advanced: advanced,
    }
}
