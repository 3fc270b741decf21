// Bench figures: the calls that a bench simulator in C makes.
ghost use Rattle.fifo_c.specs.Call.{Calls, GivesMemoryBytes, GivesStateBytes, PowersUp};
ghost use Rattle.refusal_kinds.specs.Numbers.{code_of};
ghost use Rattle.std.specs.Prelude.{◌≡◌};

use refusal_kinds::Refusal;
use spelling::state::STATE_BYTES;

pub fn fifo_state_bytes() -> u32
    ensures { GivesStateBytes result }
{
    52
}

pub fn fifo_memory_bytes(part: u32) -> u32
    ensures { GivesMemoryBytes part result }
{
    let looked_up = counts::part::look_up(part);
    match looked_up {
        Some(known) => buffers::memory::memory_bytes(known),
        None => 0,
    }
}

pub fn fifo_power_up(state: &mut [u8]) -> u32
    ensures { PowersUp state.old result state.new }
{
    if state.len() == STATE_BYTES {
        spelling::state::write_state(chip::reset::power_up(), state);
        0
    } else {
        2
    }
}

pub fn fifo_sample(
    part: u32,
    record: &[u8],
    state: &mut [u8],
    memory: &mut [u8],
    answer: &mut [u8],
) -> u32
    ensures { Calls part «record».now state.old memory.old answer.old result state.new memory.new answer.new }
{
    buffers::wide::wide_byte(refusal_kinds::code_of(sample(part, record, state, memory, answer)))
}

fn sample(
    part: u32,
    record: &[u8],
    state: &mut [u8],
    memory: &mut [u8],
    answer: &mut [u8],
) -> Result<(), Refusal>
    ensures { Calls part «record».now state.old memory.old answer.old (code_of result) state.new memory.new answer.new }
{
    let (known, word) = buffers::verdict::judge(part, record, state, memory.len(), answer.len())?;
    call_work::work::work(known, word, state, memory, answer)
}
