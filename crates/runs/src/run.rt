// A run over a whole trace, strict or lenient.
ghost use Rattle.std.specs.Prelude.{◌*◌, ◌+◌, ◌<◌, ◌≤◌, length, true, ◌≡◌};
ghost use Rattle.chip.specs.State.{widths};
ghost use Rattle.fifo.specs.Outcome.{in_numbers};
ghost use Rattle.fifo.specs.Sample.{answers_after};
ghost use Rattle.notes.specs.Fold.{Ends, started};
ghost use Rattle.runs.specs.Run.{Began, Runs, RunsLenient, ran_of, worked};
ghost use Rattle.pins.specs.Trace as trace;
ghost use Rattle.pins.specs.Trace.{whole_records};

use chip::state::State;
use counts::part::Part;
use pins::trace::Record;
use refusal_kinds::Refusal;

// Where a run ended: the index of the record that it refused, or of the end of the trace, and the number, 0 for none.
#[derive(Clone, Copy)]
pub struct Ran {
    pub state: State,
    pub accepted: usize,
    pub index: usize,
    pub refusal: u8,
}

pub fn run(part: u32, trace: &[u8], state: State, memory: &mut [u32], answers: &mut [u8]) -> Ran
    ensures { Runs part trace.now state memory.old answers.old result memory.new answers.new }
{
    let mut none = [0u8; 1];
    begin(false, part, trace, state, memory, answers, &mut none[..0])
}

pub fn run_lenient(
    part: u32,
    trace: &[u8],
    state: State,
    memory: &mut [u32],
    answers: &mut [u8],
    marks: &mut [u8],
) -> Ran
    ensures { RunsLenient part trace.now state memory.old answers.old marks.old result memory.new answers.new marks.new }
{
    begin(true, part, trace, state, memory, answers, marks)
}

fn begin(
    lenient: bool,
    part: u32,
    trace: &[u8],
    state: State,
    memory: &mut [u32],
    answers: &mut [u8],
    marks: &mut [u8],
) -> Ran
    ensures { Began lenient part trace.now state memory.old answers.old marks.old result memory.new answers.new marks.new }
{
    let looked_up = counts::part::look_up(part);
    let Some(known) = looked_up else {
        return end_at(0, 0, 1, state);
    };
    let whole = trace.len() / 4;
    let sized = fifo::sample::is_depth(known, memory.len());
    if sized & notes::answers::is_roomy(lenient, whole * 3, whole, answers.len(), marks.len()) {
        if chip::state::passes_test(known, state) {
            go(lenient, known, trace, state, memory, answers, marks)
        } else {
            end_at(0, 0, 3, state)
        }
    } else {
        end_at(0, 0, 2, state)
    }
}

fn end_at(index: usize, accepted: usize, refusal: u8, state: State) -> Ran
    ensures { result ≡ record { state = state; accepted = accepted; index = index; refusal = refusal } }
{
    Ran {
        state: state,
        accepted: accepted,
        index: index,
        refusal: refusal,
    }
}

fn go(
    lenient: bool,
    part: Part,
    trace: &[u8],
    state: State,
    memory: &mut [u32],
    answers: &mut [u8],
    marks: &mut [u8],
) -> Ran
    requires { (widths part state ≡ true) × (whole_records trace.now * 3 ≤ length answers.old) }
    ensures { Ends ran_of (worked lenient part trace.now (started state memory.old answers.old marks.old)) result memory.new answers.new marks.new }
{
    let mut s = state;
    let mut accepted: usize = 0;
    let mut index: usize = 0;
    loop {
        let record = pins::trace::record_at(trace, index);
        let Record::Whole(word, _) = record else {
            return end_at(index, accepted, ending(record), s);
        };
        let sampled = fifo::sample::step(part, word, s, memory);
        let outcome = sampled.outcome;
        // A refused record leaves the state as it was: the old one is not needed beside the new one.
        s = sampled.state;
        let number = fifo::outcome::number_of(outcome);
        if notes::number::is_stop(lenient, number) {
            return end_at(index, accepted, number, s);
        }
        note_answer(outcome, index, answers);
        notes::number::note_mark(lenient, number, index, marks);
        accepted = notes::number::count(number, accepted);
        index += 1;
    }
}

fn note_answer(outcome: Result<u32, Refusal>, index: usize, answers: &mut [u8])
    requires { index * 3 + 2 < length answers.old }
    ensures { answers.new ≡ answers_after (in_numbers outcome) index answers.old }
{
    if let Ok(answer) = outcome {
        notes::answers::put_answer(answers, index, answer);
    }
}

fn ending(record: Record) -> u8
    ensures { result ≡ trace.number_of «record» }
{
    match record {
        Record::Whole(_, _) => 0,
        Record::Leftover => 4,
        Record::End => 0,
    }
}
