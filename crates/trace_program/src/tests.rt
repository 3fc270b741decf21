// Which of its two ways to show a chunk a model is asked for, and what it is handed there: no contract says it.
ghost use Rattle.std.proofs.Common.{rules};

use super::chunks;
use super::traced::{Chunk, Ran, Traced};
use input::chunks::RECORDS;
use lines::records::Shown;
use std::cell::Cell;
use std::fmt::Display;
use std::io;

// Two records of three bytes, and two bytes of a third.
const CAME: [u8; 8] = [1, 2, 3, 4, 5, 6, 7, 8];

// In bytes, for the records of a chunk; as much for their answers.
const ROOM: usize = 9;

const WHOLE_ROOM: [u8; ROOM] = [1, 2, 3, 4, 5, 6, 7, 8, 0];

const ANSWERS: [u8; ROOM] = [0xAA; ROOM];

// The states before the chunk and after it.
const BEFORE: u8 = 5;

const AFTER: u8 = 6;

// Every record is taken.
fn take_all(trace: &[u8], answers: &mut [u8; ROOM]) -> Ran<u8> {
    *answers = ANSWERS;
    let count = trace.len() / 3;
    Ran {
        state: AFTER,
        accepted: count,
        index: count,
        refusal: 0,
    }
}

// Shows the records in place of their answers. `SHOWS_ROOMS` is left out, as it may be. Whether what it is handed agrees with what
// came and what was run, it leaves in `agrees`, as the model below does.
#[derive(Drop)]
struct ByChunk<'a> {
    agrees: &'a Cell<bool>,
}

impl Traced<ROOM, ROOM> for ByChunk<'_> {
    type State = u8;

    ghost sized = { Prim.search rules };

    fn power_up(&self) -> u8 {
        BEFORE
    }

    fn run(
        &mut self,
        trace: &[u8],
        _state: u8,
        answers: &mut [u8; ROOM],
        _marks: &mut [u8; RECORDS],
    ) -> Ran<u8> {
        take_all(trace, answers)
    }

    fn show<'a>(&'a mut self, before: u8, chunk: Chunk<'a>) -> Shown<'a> {
        let rooms = chunk.trace == CAME.as_slice() && chunk.answers == ANSWERS.as_slice();
        let marks = chunk.marks == [0, 0].as_slice();
        self.agrees.set(before == BEFORE && rooms && marks);
        Shown::Answer(chunk.trace)
    }
}

#[derive(Drop)]
struct ByRooms<'a> {
    agrees: &'a Cell<bool>,
}

impl Traced<ROOM, ROOM> for ByRooms<'_> {
    type State = u8;

    ghost sized = { Prim.search rules };

    const SHOWS_ROOMS: bool = true;

    fn power_up(&self) -> u8 {
        BEFORE
    }

    fn run(
        &mut self,
        trace: &[u8],
        _state: u8,
        answers: &mut [u8; ROOM],
        _marks: &mut [u8; RECORDS],
    ) -> Ran<u8> {
        take_all(trace, answers)
    }

    fn show_rooms<'a>(
        &'a mut self,
        before: u8,
        trace: &[u8; ROOM],
        answers: &'a [u8; ROOM],
        marks: &[u8],
    ) -> Shown<'a> {
        let rooms = *trace == WHOLE_ROOM && *answers == ANSWERS;
        self.agrees
            .set(before == BEFORE && rooms && marks == [0, 0].as_slice());
        Shown::Answer(answers)
    }
}

// Compares what is printed, a write at a time.
#[derive(Drop)]
struct Page<'a> {
    wanted: [&'a [u8]; 2],
    next: Cell<usize>,
    same: Cell<bool>,
}

impl Page<'_> {
    fn is_as_wanted(&self) -> bool {
        self.same.get() && self.next.get() == self.wanted.len()
    }
}

// The loop prints by `write_all` alone.
impl Print for Page<'_> {
    fn print<D: Display + Drop>(&self, _value: D) -> io::Result<()> {
        self.same.set(false);
        Ok(())
    }

    fn println<D: Display + Drop>(&self, _value: D) -> io::Result<()> {
        self.same.set(false);
        Ok(())
    }

    fn write_all(&self, bytes: &[u8]) -> io::Result<()> {
        let i = self.next.get();
        let same = self.wanted.get(i).is_some_and(|text| *text == bytes);
        self.same.set(self.same.get() && same);
        self.next.set(i.saturating_add(1));
        Ok(())
    }
}

fn prints<M: Traced<ROOM, ROOM> + Drop>(model: M, lines: &[u8]) -> bool {
    let page = Page {
        wanted: [lines, b"end 2 0\n"],
        next: Cell::new(0),
        same: Cell::new(true),
    };
    let mut input = CAME.as_slice();
    chunks::work_all(model, &mut input, &page);
    page.is_as_wanted()
}

#[test]
fn a_chunk_is_shown(rt: HostRuntime) {
    let agrees = Cell::new(false);
    let model = ByChunk { agrees: &agrees };
    assert!(rt; prints(model, b"0 010203\n1 040506\n"));
    assert!(rt; agrees.get());
}

#[test]
fn whole_rooms_are_shown(rt: HostRuntime) {
    let agrees = Cell::new(false);
    let model = ByRooms { agrees: &agrees };
    assert!(rt; prints(model, b"0 AAAAAA\n1 AAAAAA\n"));
    assert!(rt; agrees.get());
}

fn is_answer(shown: Shown<'_>, bytes: &[u8]) -> bool {
    match shown {
        Shown::Answer(answers) => answers == bytes,
        Shown::FlagsAndTwoAnswers { .. } => false,
    }
}

// No length of the chunk is that of a room.
#[test]
fn each_default_shows_the_answers(rt: HostRuntime) {
    let agrees = Cell::new(false);
    let chunk = Chunk {
        trace: &[1, 2, 3],
        answers: &[4, 5, 6, 7],
        marks: &[0],
    };
    let mut by_rooms = ByRooms { agrees: &agrees };
    assert!(rt; is_answer(by_rooms.show(BEFORE, chunk), &[4, 5, 6, 7]));
    let mut by_chunk = ByChunk { agrees: &agrees };
    let shown = by_chunk.show_rooms(BEFORE, &WHOLE_ROOM, &ANSWERS, &[0, 0]);
    assert!(rt; is_answer(shown, &ANSWERS));
}
