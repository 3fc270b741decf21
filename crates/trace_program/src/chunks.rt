// The trace worked chunk by chunk.
use super::traced::{Chunk, Traced};
use input::chunks;
use input::chunks::RECORDS;
use lines::records;
use lines::records::Lines;
use lines::tally::Tally;
use std::io::Read;

// What is carried from chunk to chunk.
#[derive(Clone, Copy)]
struct Progress<S> {
    state: S,
    tally: Tally,
}

pub fn work_all<const BYTES: usize, const ANSWERS: usize, M, R: Read>(
    mut model: M,
    input: &mut R,
    out: &impl Print,
)
where
    M: Traced<BYTES, ANSWERS> + Drop,
{
    let mut room = [0u8; RECORDS * records::LONGEST];
    let mut progress = Progress {
        state: model.power_up(),
        tally: Tally::start(),
    };
    // No contract says that the input ends, so a count of the chunks does.
    for _ in 0..u64::MAX {
        progress = work_chunk(&mut model, input, out, progress, &mut room);
        if progress.tally.over {
            break;
        }
    }
    records::print_end(out, progress.tally);
}

fn work_chunk<const BYTES: usize, const ANSWERS: usize, M: Traced<BYTES, ANSWERS>, R: Read>(
    model: &mut M,
    input: &mut R,
    out: &impl Print,
    before: Progress<M::State>,
    room: &mut [u8],
) -> Progress<M::State> {
    let mut trace = [0u8; BYTES];
    let mut answers = [0u8; ANSWERS];
    let mut marks = [0u8; RECORDS];
    let came = chunks::read(input, &mut trace);
    let ran = model.run(&trace[..came], before.state, &mut answers, &mut marks);
    // No run goes past its chunk; one compare spares a law that says so.
    let marks = &marks[..ran.index.min(RECORDS)];
    let shown = if M::SHOWS_ROOMS {
        model.show_rooms(before.state, &trace, &answers, marks)
    } else {
        let chunk = Chunk {
            trace: &trace[..came],
            answers: &answers,
            marks,
        };
        model.show(before.state, chunk)
    };
    let lines = Lines {
        base: before.tally.records,
        shown,
        marks,
    };
    let printed = lines.print(out, room).is_ok();
    let last = chunks::is_last(came, BYTES, printed);
    Progress {
        state: ran.state,
        tally: before
            .tally
            .count(ran.index, ran.accepted, ran.refusal, last),
    }
}
