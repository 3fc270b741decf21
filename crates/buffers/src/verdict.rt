// What is turned away, for the C call: 1 to 4 in a verdict, and the refusals of a record of four bytes.
ghost use Rattle.fifo.specs.Sample.{record_refusal};
ghost use Rattle.fifo.specs.Still.{still};
ghost use Rattle.buffers.specs.Verdict.{in_numbers, judged, on_record, on_state, roomy};
ghost use Rattle.refusal_kinds.specs.Numbers.{number_of};
ghost use Rattle.spelling.specs.Spelling.{state_bytes, state_in};
ghost use Rattle.std.specs.Prelude.{length, ◌≡◌};

use counts::part::Part;
use refusal_kinds::Refusal;
use spelling::state::STATE_BYTES;

// A record of four bytes for a part and a state that have passed their tests. `memory` and `answer` are lengths.
pub fn judge(
    part: u32,
    record: &[u8],
    state: &[u8],
    memory: usize,
    answer: usize,
) -> Result<(Part, u32), Refusal>
    ensures { in_numbers result ≡ judged part «record».now state.now memory answer }
{
    let looked_up = counts::part::look_up(part);
    let Some(known) = looked_up else {
        return Err(Refusal::UnknownPart);
    };
    if is_roomy(known, state.len(), memory, answer) {
        judge_state(known, record, state)
    } else {
        Err(Refusal::WrongLength)
    }
}

fn is_roomy(part: Part, state: usize, memory: usize, answer: usize) -> bool
    ensures { result ≡ roomy part state memory answer }
{
    (state == STATE_BYTES)
        & (memory == super::wide::wide_word(super::memory::memory_bytes(part)))
        & (answer == 3)
}

fn judge_state(part: Part, record: &[u8], state: &[u8]) -> Result<(Part, u32), Refusal>
    requires { length state.now ≡ state_bytes }
    ensures { in_numbers result ≡ on_state part «record».now state.now }
{
    let spelled = spelling::state::spells_state(state);
    let passed = chip::state::passes_test(part, spelling::state::read_state(state));
    if spelled & passed {
        judge_record(part, record)
    } else {
        Err(Refusal::UnfitState)
    }
}

#[tactic(auto, unfolding(crate::specs::Verdict::on_record))]
fn judge_record(part: Part, record: &[u8]) -> Result<(Part, u32), Refusal>
    ensures { in_numbers result ≡ on_record part «record».now }
{
    if record.len() == 4 {
        Ok((part, pins::trace::word_at(record, 0)))
    } else {
        Err(Refusal::UnreadableRecord)
    }
}

// Neither of these two takes the state apart for the other: a field that one does not need is not read for it.
pub fn is_still(word: u32, state: &[u8]) -> bool
    requires { length state.now ≡ state_bytes }
    ensures { result ≡ still word (state_in state.now) }
{
    fifo::sample::is_still(word, spelling::state::read_state(state))
}

// 5 to 10, and 12.
pub fn refuse(part: Part, word: u32, state: &[u8]) -> Option<Refusal>
    requires { length state.now ≡ state_bytes }
    ensures { number_of result ≡ record_refusal part word (state_in state.now) }
{
    fifo::sample::refuse_record(part, word, spelling::state::read_state(state))
}
