// A run from power-up under a name for programs in C, which time it. They know their traces to be legal, so that an index is
// enough for them.
ghost use Rattle.run_c.specs.FromPowerUp.{RunsFromPowerUp};

// A strict run from power-up, and the index at which it ended.
#[unsafe(no_mangle)]
pub extern "C" fn fifo_run(part: u32, trace: &[u8], memory: &mut [u32], answers: &mut [u8]) -> usize
    ensures { RunsFromPowerUp part trace.now memory.old answers.old result memory.new answers.new }
{
    let state = chip::reset::power_up();
    let ran = runs::run::run(part, trace, state, memory, answers);
    ran.index
}
