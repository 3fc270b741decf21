// A run of two parts side by side from power-up under a name for programs in C, which time it. They know their traces to be
// legal, so that an index is enough for them.
ghost use Rattle.halves.specs.Two.{two};
ghost use Rattle.pair_c.specs.FromPowerUp.{RunsFromPowerUp};

// A strict run from power-up, and the index at which it ended.
#[unsafe(no_mangle)]
pub extern "C" fn pair_run(
    part: u32,
    trace: &[u8],
    left_memory: &mut [u32],
    right_memory: &mut [u32],
    answers: &mut [u8],
) -> usize
    ensures { RunsFromPowerUp part trace.now (two left_memory.old right_memory.old) answers.old result (two left_memory.new right_memory.new) answers.new }
{
    let state = halves::state::power_up();
    let ran = pair_runs::run::run(part, trace, state, left_memory, right_memory, answers);
    ran.index
}
