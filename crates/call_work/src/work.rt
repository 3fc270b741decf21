// Bench figures: the work of a call from C on a record that may be worked, in the caller's own bytes.
ghost use Rattle.chip.specs.Answer.{answer_of};
ghost use Rattle.chip.specs.Quiet.{held};
ghost use Rattle.buffers.specs.Verdict.{Ready, answer_bytes};
ghost use Rattle.call_work.specs.Work.{Gives, taken, worked};
ghost use Rattle.refusal_kinds.specs.Numbers.{code_of};
ghost use Rattle.spelling.specs.Spelling.{spelling, spells, state_bytes, state_in};
ghost use Rattle.pins.specs.Record.{pins_of};
ghost use Rattle.pins.specs.Answer.{put_answer};
ghost use Rattle.std.specs.Prelude.{length, true, ◌≡◌};

use counts::part::Part;
use refusal_kinds::Refusal;

// A sample is taken, held or turned away; every test is made before anything is written.
pub fn work(
    part: Part,
    word: u32,
    state: &mut [u8],
    memory: &mut [u8],
    answer: &mut [u8],
) -> Result<(), Refusal>
    requires { Ready part state.old (length memory.old) (length answer.old) }
    ensures { Gives (worked part word state.old memory.old answer.old) (code_of result) state.new memory.new answer.new }
{
    if buffers::verdict::is_still(word, state) {
        hold(part, word, state, answer);
        Ok(())
    } else {
        take_or_turn_away(part, word, state, memory, answer)
    }
}

// Only what is remembered of the pins changes: the state need not be written anew.
fn hold(part: Part, word: u32, state: &mut [u8], answer: &mut [u8])
    requires state_len { length state.old ≡ state_bytes }
    requires state_value { spells state.old ≡ true }
    requires answer_len { length answer.old ≡ answer_bytes }
    ensures spelled { state.new ≡ spelling (held (pins_of word) (state_in state.old)) }
    ensures answered { answer.new ≡ put_answer answer.old 0 (answer_of part (pins_of word) (state_in state.old)) }
{
    let p = pins::record::decode(word);
    let s = spelling::state::read_state(state);
    let given = chip::answer::answer(part, p, s);
    notes::answers::put_answer(answer, 0, given);
    let enables = chip::enables::enables_after(p, s);
    spelling::state::put_remembered(p.wclk, p.rclk, enables, state);
}

fn take_or_turn_away(
    part: Part,
    word: u32,
    state: &mut [u8],
    memory: &mut [u8],
    answer: &mut [u8],
) -> Result<(), Refusal>
    requires { Ready part state.old (length memory.old) (length answer.old) }
    ensures { Gives (worked part word state.old memory.old answer.old) (code_of result) state.new memory.new answer.new }
{
    if let Some(refusal) = buffers::verdict::refuse(part, word, state) {
        return Err(refusal);
    }
    take(part, word, state, memory, answer);
    Ok(())
}

fn take(part: Part, word: u32, state: &mut [u8], memory: &mut [u8], answer: &mut [u8])
    requires { Ready part state.old (length memory.old) (length answer.old) }
    ensures { Gives (taken part word (state_in state.old) memory.old answer.old) 0 state.new memory.new answer.new }
{
    let s = spelling::state::read_state(state);
    let place = counts::round::place(part, s.read.count);
    let fetched = buffers::memory::fetch(memory, place);
    let advanced = chip::advance::advance(part, pins::record::decode(word), fetched, s);
    let store = advanced.store;
    buffers::memory::put_away(store, memory);
    let next = advanced.state;
    spelling::state::write_state(next, state);
    notes::answers::put_answer(answer, 0, advanced.answer);
}
