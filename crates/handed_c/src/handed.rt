// Runs from a state that is handed in as bytes, so that both can be tried on every kind of state, room and trace.
ghost use Rattle.handed_c.specs.Handed.{HandsBack, RunsLenient, RunsStrict, ended_size, sound};
ghost use Rattle.spelling.specs.Spelling.{state_bytes};
ghost use Rattle.std.specs.Prelude.{length, ◌≡◌};

use runs::run::Ran;
use spelling::state::STATE_BYTES;

// `ended` gets the index at which the run ended and the records that it accepted. 3 also where the state's bytes spell none
// or a room for a state or an end has another length; nothing is run then.
#[unsafe(no_mangle)]
pub extern "C" fn fifo_run_from(
    part: u32,
    trace: &[u8],
    state: &mut [u8],
    memory: &mut [u32],
    answers: &mut [u8],
    ended: &mut [u64],
) -> u32
    ensures { RunsStrict part trace.now state.old memory.old answers.old ended.old result state.new memory.new answers.new ended.new }
{
    if is_sound(state, ended.len()) {
        let from = spelling::state::read_state(state);
        let ran = runs::run::run(part, trace, from, memory, answers);
        hand_back(ran, state, ended);
        wide(ran.refusal)
    } else {
        3
    }
}

#[unsafe(no_mangle)]
pub extern "C" fn fifo_run_lenient_from(
    part: u32,
    trace: &[u8],
    state: &mut [u8],
    memory: &mut [u32],
    answers: &mut [u8],
    marks: &mut [u8],
    ended: &mut [u64],
) -> u32
    ensures { RunsLenient part trace.now state.old memory.old answers.old marks.old ended.old result state.new memory.new answers.new marks.new ended.new }
{
    if is_sound(state, ended.len()) {
        let from = spelling::state::read_state(state);
        let ran = runs::run::run_lenient(part, trace, from, memory, answers, marks);
        hand_back(ran, state, ended);
        wide(ran.refusal)
    } else {
        3
    }
}

fn is_sound(state: &[u8], ended: usize) -> bool
    ensures { result ≡ sound state.now ended }
{
    if (state.len() == STATE_BYTES) & (ended == 2) {
        spelling::state::spells_state(state)
    } else {
        false
    }
}

fn hand_back(ran: Ran, state: &mut [u8], ended: &mut [u64])
    requires state_len { length state.old ≡ state_bytes }
    requires ended_len { length ended.old ≡ ended_size }
    ensures { HandsBack ran state.new ended.new }
{
    let after = ran.state;
    spelling::state::write_state(after, state);
    ended[0] = ran.index as u64;
    ended[1] = ran.accepted as u64;
}

fn wide(number: u8) -> u32
    ensures { result ≡ number }
{
    number as u32
}
