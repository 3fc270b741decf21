// A run of two parts side by side over a whole trace, strict or lenient.
ghost use Rattle.halves.specs.Two.{two};
ghost use Rattle.pair_runs.specs.Run.{Began, Runs, RunsLenient};

use halves::state::Halves;
use pair_work::work::Ran;

pub fn run(
    part: u32,
    trace: &[u8],
    state: Halves,
    left_memory: &mut [u32],
    right_memory: &mut [u32],
    answers: &mut [u8],
) -> Ran
    ensures { Runs part trace.now state (two left_memory.old right_memory.old) answers.old result (two left_memory.new right_memory.new) answers.new }
{
    let mut none = [0u8; 1];
    begin(
        false,
        part,
        trace,
        state,
        left_memory,
        right_memory,
        answers,
        &mut none[..0],
    )
}

pub fn run_lenient(
    part: u32,
    trace: &[u8],
    state: Halves,
    left_memory: &mut [u32],
    right_memory: &mut [u32],
    answers: &mut [u8],
    marks: &mut [u8],
) -> Ran
    ensures { RunsLenient part trace.now state (two left_memory.old right_memory.old) answers.old marks.old result (two left_memory.new right_memory.new) answers.new marks.new }
{
    begin(
        true,
        part,
        trace,
        state,
        left_memory,
        right_memory,
        answers,
        marks,
    )
}

fn begin(
    lenient: bool,
    part: u32,
    trace: &[u8],
    state: Halves,
    left_memory: &mut [u32],
    right_memory: &mut [u32],
    answers: &mut [u8],
    marks: &mut [u8],
) -> Ran
    ensures { Began lenient part trace.now state (two left_memory.old right_memory.old) answers.old marks.old result (two left_memory.new right_memory.new) answers.new marks.new }
{
    let looked_up = counts::part::look_up(part);
    let Some(known) = looked_up else {
        return pair_work::work::end_at(0, 0, 1, state);
    };
    let whole = trace.len() / 8;
    let sized = pair::sample::are_depth(known, left_memory.len(), right_memory.len());
    if sized & notes::answers::is_roomy(lenient, whole * 6, whole, answers.len(), marks.len()) {
        if halves::state::passes_test(known, state) {
            pair_work::work::work(
                lenient,
                known,
                trace,
                state,
                left_memory,
                right_memory,
                answers,
                marks,
            )
        } else {
            pair_work::work::end_at(0, 0, 3, state)
        }
    } else {
        pair_work::work::end_at(0, 0, 2, state)
    }
}
