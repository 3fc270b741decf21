// Parts in a row (paper 02, order 4): the chain's list of part states, lent by the caller, one entry a part, and their memories as one slice of words,
// each part's after the other. These four functions touch the list; all else is done on a row of states by value.
#![tactic(auto)]

ghost use Rattle.chain.specs.Chain.{Runs, Samples};
ghost use Rattle.fifo.specs.Outcome.{in_numbers};
ghost use Rattle.rows.specs.Row.{put_back, row_of};
ghost use Rattle.std.specs.Prelude.{◌≡◌};

use chain_runs::run::Report;
use chip::state::State;
use refusal_kinds::Refusal;
use rows::row::Row;

fn load(states: &[State]) -> Row
    ensures { result ≡ row_of states.now }
{
    let mut row = rows::row::power_up(states.len());
    for i in 0..states.len() {
        row = rows::row::with_state(row, i, states[i]);
    }
    row
}

fn store(states: &mut [State], row: Row)
    ensures { states.new ≡ put_back row states.old }
{
    for i in 0..states.len() {
        states[i] = rows::row::chosen(row, i, states[i]);
    }
}

pub fn sample(
    part: u32,
    bytes: &[u8],
    states: &mut [State],
    memory: &mut [u32],
) -> Result<u32, Refusal>
    ensures { Samples part bytes.now states.old memory.old (in_numbers result) states.new memory.new }
{
    let row = load(states);
    let worked = chain_runs::sample::sample(part, bytes, row, memory);
    let after = chain_runs::sample::row_of(worked);
    store(states, after);
    chain_runs::sample::outcome_of(worked)
}

// Strict, or lenient: a strict run leaves the marks as they are.
pub fn run(
    lenient: bool,
    part: u32,
    trace: &[u8],
    states: &mut [State],
    memory: &mut [u32],
    answers: &mut [u8],
    marks: &mut [u8],
) -> Report
    ensures { Runs lenient part trace.now states.old memory.old answers.old marks.old result states.new memory.new answers.new marks.new }
{
    let row = load(states);
    let ran = chain_runs::run::run(lenient, part, trace, row, memory, answers, marks);
    let after = chain_runs::run::row_of(ran);
    store(states, after);
    chain_runs::run::report_of(ran)
}
