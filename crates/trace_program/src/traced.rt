// What the loop over the chunks asks of a model.
ghost use Rattle.lines.specs.declared.records.Shown.TheVariants.{Answer};
ghost use Rattle.std.specs.Prelude.{◌^◌, ◌<◌, ◌≡◌};

use input::chunks::RECORDS;
use lines::records::Shown;

// Where a run over a chunk ended: the index of the record that it refused, or of the end of the chunk, and the number, 0 for none.
#[derive(Clone, Copy)]
pub struct Ran<S> {
    pub state: S,
    pub accepted: usize,
    pub index: usize,
    pub refusal: u8,
}

// A chunk that was run, and what the run wrote down of each of its records: an answer, and a mark, the number under which it was
// refused, 0 where there is an answer.
#[derive(Clone, Copy)]
pub struct Chunk<'a> {
    pub trace: &'a [u8],
    pub answers: &'a [u8],
    pub marks: &'a [u8],
}

impl<'a> Chunk<'a> {
    // Promised here, since a clause on `Traced::show` would bind every model.
    fn show_answers(self) -> Shown<'a>
        ensures { result ≡ Answer self.entry.answers }
    {
        Shown::Answer(self.answers)
    }
}

// BYTES are those of a chunk's records, ANSWERS those of their answers.
pub trait Traced<const BYTES: usize, const ANSWERS: usize> {
    type State: Copy;

    fn power_up(&self) -> Self::State;

    // All marks are 0 before, and a strict run leaves them so: each record before its end has an answer.
    fn run(
        &mut self,
        trace: &[u8],
        state: Self::State,
        answers: &mut [u8; ANSWERS],
        marks: &mut [u8; RECORDS],
    ) -> Ran<Self::State>;

    // The loop asks `show`, or, where this is true, `show_rooms` in its place: a model with one of its own says so here.
    const SHOWS_ROOMS: bool = false;

    // What the lines of a chunk show, by the state before it. The chunk has as much of the trace as came, the whole room for answers,
    // and the marks of the records that were run.
    fn show<'a>(&'a mut self, _before: Self::State, chunk: Chunk<'a>) -> Shown<'a> {
        chunk.show_answers()
    }

    // The same for a model that relies on the lengths of the rooms, which slices do not tell. Trace and answers are the whole rooms,
    // the marks those of the records that were run.
    fn show_rooms<'a>(
        &'a mut self,
        _before: Self::State,
        _trace: &[u8; BYTES],
        answers: &'a [u8; ANSWERS],
        _marks: &[u8],
    ) -> Shown<'a> {
        Shown::Answer(answers)
    }

    // No array is longer.
    ghost sized: { (BYTES < 2 ^ 63) × (ANSWERS < 2 ^ 63) };
}
