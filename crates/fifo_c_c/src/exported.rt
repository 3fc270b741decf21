// Each export hands its arguments on and has the promise of the call behind it.
ghost use Rattle.fifo_c.specs.Call.{Calls, GivesMemoryBytes, GivesStateBytes, PowersUp};

use fifo_c::call;

#[unsafe(no_mangle)]
pub extern "C" fn fifo_state_bytes() -> u32
    ensures { GivesStateBytes result }
{
    call::fifo_state_bytes()
}

#[unsafe(no_mangle)]
pub extern "C" fn fifo_memory_bytes(part: u32) -> u32
    ensures { GivesMemoryBytes part result }
{
    call::fifo_memory_bytes(part)
}

#[unsafe(no_mangle)]
pub extern "C" fn fifo_power_up(state: &mut [u8]) -> u32
    ensures { PowersUp state.old result state.new }
{
    call::fifo_power_up(state)
}

#[unsafe(no_mangle)]
pub extern "C" fn fifo_sample(
    part: u32,
    record: &[u8],
    state: &mut [u8],
    memory: &mut [u8],
    answer: &mut [u8],
) -> u32
    ensures { Calls part «record».now state.old memory.old answer.old result state.new memory.new answer.new }
{
    call::fifo_sample(part, record, state, memory, answer)
}
