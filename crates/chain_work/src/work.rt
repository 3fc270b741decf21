// The records of a chain's trace worked one after the other, once 1, 13, 2 and 3 have been passed.
ghost use Rattle.std.specs.Prelude.{◌*◌, ◌+◌, ◌-◌, ◌<◌, ◌≤◌, eqb, length, cond, false, true, ◌≡◌};
ghost use Rattle.chain_work.specs.Records as records;
ghost use Rattle.chain_work.specs.Records.{whole_records};
ghost use Rattle.chain_work.specs.Work.{ran_of, worked};
ghost use Rattle.rows.specs.Relied.{fits};
ghost use Rattle.chip.specs.Answer.{lines_of};
ghost use Rattle.counts.specs.Part.{depth_of};
ghost use Rattle.links.specs.Wire.{ends_of};
ghost use Rattle.notes.specs.Fold.{Ends, started};
ghost use Rattle.pins.specs.Answer.{packed, put_answer};

use super::records::Record;
use chip::state::State;
use counts::part::Part;
use pins::record::Pins;
use rows::row::Row;

// Where a run ended: the index of the record that it refused, or of the end of the trace, and the number, 0 for none.
#[derive(Clone, Copy)]
pub struct Ran {
    pub row: Row,
    pub accepted: usize,
    pub index: usize,
    pub refusal: u8,
}

pub fn end_at(index: usize, accepted: usize, refusal: u8, row: Row) -> Ran
    ensures { result ≡ record { row = row; accepted = accepted; index = index; refusal = refusal } }
{
    Ran {
        row: row,
        accepted: accepted,
        index: index,
        refusal: refusal,
    }
}

// The row is moved in place: a row that goes through a function is copied state by state.
pub fn work(
    lenient: bool,
    part: Part,
    trace: &[u8],
    row: Row,
    memory: &mut [u32],
    answers: &mut [u8],
    marks: &mut [u8],
) -> Ran
    requires { (fits part (length memory.old) row ≡ true) × (whole_records trace.now * 3 ≤ length answers.old) }
    ensures { Ends ran_of (worked lenient part trace.now (started row memory.old answers.old marks.old)) result memory.new answers.new marks.new }
{
    let mut r = row;
    let mut accepted: usize = 0;
    let mut index: usize = 0;
    loop {
        let record = super::records::record_at(trace, index);
        let Record::Whole(head, more) = record else {
            return end_at(index, accepted, ending(record), r);
        };
        let x = links::record::read_links(head, more);
        let number = refusal_kinds::number_of(rows::judging::refusal(part, x, r));
        if notes::number::is_stop(lenient, number) {
            return end_at(index, accepted, number, r);
        }
        let count = r.count;
        let moving = moving_parts(number, count);
        let first = r.states[0];
        let mut earlier = chip::answer::lines(part, false, first);
        let mut i: usize = 0;
        while i < moving {
            let s = r.states[i];
            let later = r.states[rows::judging::place_after(i)];
            let p = rows::judging::wire_part(part, x, count, i, earlier, later);
            r.states[i] = rows::moving::move_part(part, p, s, i * depth(part), memory);
            earlier = chip::answer::lines(part, false, s);
            i += 1;
        }
        let answer = answer(part, x.pins, r.states[0], r.states[place_before(count)]);
        note_answer(number, answer, index, answers);
        notes::number::note_mark(lenient, number, index, marks);
        accepted = notes::number::count(number, accepted);
        index += 1;
    }
}

// Where the record is refused none moves.
fn moving_parts(number: u8, count: usize) -> usize
    ensures { result ≡ cond (eqb number 0) count 0 }
{
    if number == 0 { count } else { 0 }
}

fn depth(part: Part) -> usize
    ensures { result ≡ depth_of part }
{
    wide(counts::part::depth(part))
}

fn wide(words: u16) -> usize
    ensures { result ≡ words }
{
    words as usize
}

fn place_before(count: usize) -> usize
    ensures { result ≡ count - 1 }
{
    if count == 0 { 0 } else { count - 1 }
}

fn answer(part: Part, p: Pins, first: State, last: State) -> u32
    ensures { result ≡ packed (ends_of (lines_of part false first) (lines_of part p.oe last)) }
{
    let at_first = chip::answer::lines(part, false, first);
    let at_last = chip::answer::lines(part, p.oe, last);
    pins::answer::pack(links::wire::join_ends(at_first, at_last))
}

fn note_answer(number: u8, answer: u32, index: usize, answers: &mut [u8])
    requires { index * 3 + 2 < length answers.old }
    ensures { answers.new ≡ cond (eqb number 0) (put_answer answers.old index answer) answers.old }
{
    if number == 0 {
        notes::answers::put_answer(answers, index, answer);
    }
}

fn ending(record: Record) -> u8
    ensures { result ≡ records.number_of «record» }
{
    match record {
        Record::Whole(_, _) => 0,
        Record::Leftover => 4,
        Record::End => 0,
    }
}
