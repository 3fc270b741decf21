// One accepted sample: the next state, the answer, and what to store.
ghost use Rattle.chip.specs.Advance.{Advances, running, state_after, store_of};
ghost use Rattle.chip.specs.State.{widths};
ghost use Rattle.std.specs.Prelude.{true, ◌≡◌};

use super::enables::Enables;
use super::state::State;
use counts::part::Part;
use pins::record::Pins;

// A word that the memory is to take, and the place where.
#[derive(Clone, Copy, Debug, PartialEq, Eq)]
pub struct Put {
    pub place: u16,
    pub word: u32,
}

#[derive(Clone, Copy, Debug, PartialEq, Eq)]
pub struct Advanced {
    pub state: State,
    pub answer: u32,
    pub store: Option<Put>,
}

// `fetched` is the word of the memory at the place of the read count.
#[tactic(auto, unfolding(crate::specs::Advance::advanced))]
pub fn advance(part: Part, p: Pins, fetched: u32, s: State) -> Advanced
    requires { widths part s ≡ true }
    ensures { Advances part p fetched s result }
{
    let state = state_after(part, p, fetched, s);
    let answer = super::answer::answer(part, p, state);
    let store = store_of(part, p, s);
    Advanced {
        state,
        answer,
        store,
    }
}

#[tactic(auto, unfolding(crate::specs::Advance::state_after))]
fn state_after(part: Part, p: Pins, fetched: u32, s: State) -> State
    requires { widths part s ≡ true }
    ensures { result ≡ state_after part p fetched s }
{
    if p.mrs {
        if p.prs {
            run(part, p, fetched, s)
        } else {
            super::reset::reset_partial(p, s)
        }
    } else {
        super::reset::reset_master(p, s)
    }
}

#[tactic(auto, using(crate::specs::Widths::apart), unfolding(crate::specs::Advance::running))]
fn run(part: Part, p: Pins, fetched: u32, s: State) -> State
    requires { widths part s ≡ true }
    ensures { result ≡ running part p fetched s }
{
    let n = s.offsets.n;
    let m = s.offsets.m;
    let write_rises = sides::clocks::write_rises(p, s.write);
    let read_rises = sides::clocks::read_rises(p, s.read);
    let enables = super::enables::enables_after(p, s);
    State {
        write: sides::write::write_after(part, n, m, p, s.read, s.write),
        read: sides::read::read_after(part, n, m, p, fetched, s.write, s.read),
        offsets: offsets::loading::load(part, p, write_rises, s.offsets),
        reading: offsets::reading::read_offset(p, read_rises, s.offsets, s.reading),
        enables: Enables {
            rt: enables.rt,
            ren: enables.ren,
            wen: enables.wen,
            clean: enables.clean,
        },
        ..s
    }
}

#[tactic(auto, unfolding(crate::specs::Advance::store_of))]
fn store_of(part: Part, p: Pins, s: State) -> Option<Put>
    ensures { result ≡ store_of part p s }
{
    if p.mrs & p.prs & sides::write::accepts_word(part, p, s.write) {
        Some(Put {
            place: counts::round::place(part, s.write.count),
            word: pins::record::low_word(p.d),
        })
    } else {
        None
    }
}
