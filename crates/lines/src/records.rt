// The lines of a trace's records, or of its samples of two records, and the last line of all.
ghost use Rattle.std.specs.Prelude.{◌≡◌, ◌+◌, ◌*◌, ◌^◌, ◌<◌, ◌≤◌, length, slice_index};
ghost use Rattle.lines.specs.Records.{put_answer, put_flags, put_taken, shown_bytes};

use super::tally::Tally;
use std::io;
use text::{bytes, digits};

// No line is longer, in bytes: two numbers of 20 digits at most, nine bytes of a word and its blanks, and the end of the line.
pub const LONGEST: usize = 50;

// What the lines show of the records that were taken, after their indices. An answer is three bytes, flags are two digits.
#[derive(Clone, Copy)]
pub enum Shown<'a> {
    Answer(&'a [u8]),
    FlagsAndTwoAnswers { flags: &'a [u8], answers: &'a [u8] },
}

// The lines of records that follow one another, `base` the index of the first. Each has a mark, the number under which it was
// refused, 0 where there is an answer.
#[derive(Clone, Copy)]
pub struct Lines<'a> {
    pub base: u64,
    pub shown: Shown<'a>,
    pub marks: &'a [u8],
}

impl Lines<'_> {
    // In one write.
    pub fn print(&self, out: &impl Print, room: &mut [u8]) -> io::Result<()> {
        // A chunk's records always fit; one compare spares a law that says so.
        let count = self.marks.len().min(room.len() / LONGEST);
        let end = self.put(room, count);
        out.write_all(&room[..end])
    }

    fn put(&self, room: &mut [u8], count: usize) -> usize
        requires { (count ≤ length self.now.marks.now) × (count * 50 ≤ length room.old) }
        ensures { result ≤ count * 50 }
    {
        let mut at = 0;
        for (i, mark) in self.marks[..count].iter().enumerate() {
            at = self.put_line(room, at, i, *mark);
        }
        at
    }

    fn put_line(&self, room: &mut [u8], at: usize, i: usize, mark: u8) -> usize
        requires { (at ≤ i * 50) × (i * 50 + 50 ≤ length room.old) }
        ensures { result ≤ at + 50 }
    {
        let after = digits::put_decimal(room, at, self.base.wrapping_add(i as u64));
        if mark == 0 {
            let end = self.shown.put_taken(room, after, i);
            bytes::put_byte(room, end, b'\n');
            end + 1
        } else {
            put_ending(room, after, b" refused ", mark)
        }
    }
}

impl Shown<'_> {
    fn put_taken(&self, room: &mut [u8], at: usize, i: usize) -> usize
        requires { (at + 17 ≤ length room.old) × (i * 6 + 5 < 2 ^ 64) }
        ensures { (result ≤ at + 17) × (result ≡ at + shown_bytes self.now) × (room.new ≡ put_taken self.now room.old at i) }
    {
        match *self {
            Shown::Answer(answers) => {
                put_answer(room, at, answers, i * 3);
                at + 7
            }
            Shown::FlagsAndTwoAnswers { flags, answers } => {
                put_flags(room, at, flags, i * 2);
                put_answer(room, at + 3, answers, i * 6);
                put_answer(room, at + 10, answers, i * 6 + 3);
                at + 17
            }
        }
    }
}

#[tactic(auto, unfolding(crate::specs::Records::put_flags))]
fn put_flags(room: &mut [u8], at: usize, flags: &[u8], from: usize)
    requires { (at + 3 ≤ length room.old) × (from + 1 < 2 ^ 64) }
    ensures { room.new ≡ put_flags room.old at flags.now from }
{
    bytes::put_byte(room, at, b' ');
    bytes::put_byte(room, at + 1, byte_at(flags, from));
    bytes::put_byte(room, at + 2, byte_at(flags, from + 1));
}

#[tactic(auto, unfolding(crate::specs::Records::put_answer))]
fn put_answer(room: &mut [u8], at: usize, answers: &[u8], from: usize)
    requires { (at + 7 ≤ length room.old) × (from + 2 < 2 ^ 64) }
    ensures { room.new ≡ put_answer room.old at answers.now from }
{
    bytes::put_byte(room, at, b' ');
    digits::put_hex(room, at + 1, byte_at(answers, from));
    digits::put_hex(room, at + 3, byte_at(answers, from + 1));
    digits::put_hex(room, at + 5, byte_at(answers, from + 2));
}

// What a run wrote down of a record always stands there; one compare spares the lines a law that says so.
fn byte_at(bytes: &[u8], at: usize) -> u8
    ensures { result ≡ slice_index bytes.now at }
{
    bytes.get(at).copied().unwrap_or(0)
}

// The last line of all.
pub fn print_end(out: &impl Print, tally: Tally) {
    let mut room = [0u8; LONGEST];
    let first = bytes::put_text(&mut room, 0, b"end ");
    let after = digits::put_decimal(&mut room, first, tally.accepted);
    let end = put_ending(&mut room, after, b" ", tally.refusal);
    // There is nothing to be done where nobody takes it.
    let _ = out.write_all(&room[..end]);
}

// A word, a number, and the end of the line.
fn put_ending(room: &mut [u8], at: usize, word: &[u8], number: u8) -> usize
    requires { at + length word.now + 21 ≤ length room.old }
    ensures { result ≤ at + length word.now + 21 }
{
    let after = bytes::put_text(room, at, word);
    let end = digits::put_decimal(room, after, u64::from(number));
    bytes::put_byte(room, end, b'\n');
    end + 1
}
