// The memory's words: one fetched and one stored, at most, for a sample.
ghost use Rattle.chip.specs.Advance.{stored};
ghost use Rattle.fifo.specs.Sample.{fetched_for};
ghost use Rattle.std.specs.Prelude.{◌≡◌};

use chip::advance::Put;
use chip::state::State;
use counts::part::Part;

pub fn fetch_for(part: Part, state: State, memory: &[u32]) -> u32
    ensures { result ≡ fetched_for part state memory.now }
{
    let place = counts::round::place(part, state.read.count);
    memory.get(usize::from(place)).copied().unwrap_or(0)
}

pub(crate) fn put_away(store: Option<Put>, memory: &mut [u32])
    ensures { memory.new ≡ stored store memory.old }
{
    if let Some(put) = store {
        let at = usize::from(put.place);
        if at < memory.len() {
            memory[at] = put.word;
        }
    }
}
