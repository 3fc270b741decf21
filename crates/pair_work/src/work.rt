// The samples of a trace worked one after the other, once a run has passed 1 to 3.
ghost use Rattle.std.specs.Prelude.{◌*◌, ◌+◌, ◌<◌, ◌≤◌, length, true, ◌≡◌};
ghost use Rattle.chip.specs.State.{widths};
ghost use Rattle.halves.specs.Two.{two};
ghost use Rattle.notes.specs.Fold.{Ends, started};
ghost use Rattle.pair.specs.Outcome.{in_numbers};
ghost use Rattle.pair.specs.Sample.{answers_after, number_of};
ghost use Rattle.pair_work.specs.Samples as samples;
ghost use Rattle.pair_work.specs.Samples.{whole_samples};
ghost use Rattle.pair_work.specs.Work.{ran_of, worked};

use super::samples::Sample;
use counts::part::Part;
use halves::state::Halves;
use refusal_kinds::Refusal;

// Where a run ended: the index of the sample that it refused, or of the end of the trace, and the number, 0 for none.
#[derive(Clone, Copy)]
pub struct Ran {
    pub state: Halves,
    pub accepted: usize,
    pub index: usize,
    pub refusal: u8,
}

pub fn end_at(index: usize, accepted: usize, refusal: u8, state: Halves) -> Ran
    ensures { result ≡ record { state = state; accepted = accepted; index = index; refusal = refusal } }
{
    Ran {
        state: state,
        accepted: accepted,
        index: index,
        refusal: refusal,
    }
}

pub fn work(
    lenient: bool,
    part: Part,
    trace: &[u8],
    state: Halves,
    left_memory: &mut [u32],
    right_memory: &mut [u32],
    answers: &mut [u8],
    marks: &mut [u8],
) -> Ran
    requires { (widths part state.left ≡ true) × (widths part state.right ≡ true) × (whole_samples trace.now * 6 ≤ length answers.old) }
    ensures { Ends ran_of (worked lenient part trace.now (started state (two left_memory.old right_memory.old) answers.old marks.old)) result (two left_memory.new right_memory.new) answers.new marks.new }
{
    let mut s = state;
    let mut accepted: usize = 0;
    let mut index: usize = 0;
    loop {
        let sample = super::samples::sample_at(trace, index);
        let Sample::Whole(left, right) = sample else {
            return end_at(index, accepted, ending(sample), s);
        };
        let sampled = pair::sample::step(part, left, right, s, left_memory, right_memory);
        let outcome = sampled.outcome;
        // A refused sample leaves the state as it was: the old one is not needed beside the new one.
        s = sampled.state;
        let number = number_of(outcome);
        if notes::number::is_stop(lenient, number) {
            return end_at(index, accepted, number, s);
        }
        note_answers(outcome, index, answers);
        notes::number::note_mark(lenient, number, index, marks);
        accepted = notes::number::count(number, accepted);
        index += 1;
    }
}

fn number_of(outcome: Result<(u32, u32), Refusal>) -> u8
    ensures { result ≡ number_of (in_numbers outcome) }
{
    match outcome {
        Ok(_) => 0,
        Err(refusal) => refusal.number(),
    }
}

fn note_answers(outcome: Result<(u32, u32), Refusal>, index: usize, answers: &mut [u8])
    requires { index * 6 + 5 < length answers.old }
    ensures { answers.new ≡ answers_after (in_numbers outcome) index answers.old }
{
    if let Ok((left, right)) = outcome {
        notes::answers::put_answer(answers, index * 2, left);
        notes::answers::put_answer(answers, index * 2 + 1, right);
    }
}

fn ending(sample: Sample) -> u8
    ensures { result ≡ samples.number_of sample }
{
    match sample {
        Sample::Whole(_, _) => 0,
        Sample::Leftover => 4,
        Sample::End => 0,
    }
}
