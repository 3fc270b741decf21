// A run of parts in a row from power-up under a name for programs in C, which time it. They know their traces to be legal, so
// that an index is enough for them.
ghost use Rattle.chain_c.specs.FromPowerUp.{RunsFromPowerUp};

// A strict run from power-up, and the index at which it ended.
#[unsafe(no_mangle)]
pub extern "C" fn chain_run(
    part: u32,
    count: usize,
    trace: &[u8],
    memory: &mut [u32],
    answers: &mut [u8],
) -> usize
    ensures { RunsFromPowerUp part count trace.now memory.old answers.old result memory.new answers.new }
{
    let row = rows::row::power_up(count);
    let mut none = [0u8; 1];
    let ran = chain_runs::run::run(false, part, trace, row, memory, answers, &mut none[..0]);
    ran.index
}
