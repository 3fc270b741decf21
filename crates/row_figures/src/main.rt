// Parts in a row (paper 02, order 4): a row of two parts 255 that is handed in, and the number that one sample on it gets, a line for each. What a
// trace from power-up cannot come to is here too: 2, 3 and 10.
#![tactic(auto)]

use chip::state::State;
use rows::row::Row;
use std::io;

// Master Reset into fall-through; a rise of WCLK with WEN LOW; the same, D still moving; RT LOW; MRS LOW with FWFT/SI LOW; a rise of the transfer clock.
const RESET: [u8; 7] = [0x4F, 0xC0, 0x00, 0x00, 0x00, 0xFF, 0xFF];

const WRITE: [u8; 7] = [0xE7, 0xC0, 0x00, 0x41, 0x00, 0xFF, 0xFF];

const MOVING: [u8; 7] = [0xE7, 0xC4, 0x00, 0x41, 0x00, 0xFF, 0xFF];

const RETRANSMIT: [u8; 7] = [0xCF, 0x40, 0x00, 0x00, 0x00, 0xFF, 0xFF];

const STANDARD: [u8; 7] = [0x4F, 0x80, 0x00, 0x00, 0x00, 0xFF, 0xFF];

const TRANSFER: [u8; 7] = [0xCF, 0xC0, 0x00, 0x00, 0x80, 0xFF, 0xFF];

const SPARE: [u8; 7] = [0xCF, 0xC0, 0x00, 0x00, 0x40, 0xFF, 0xFF];

// Of one part by itself, in fall-through: the Master Reset, a word written, both clocks LOW, a rise of RCLK, and one with RT LOW.
const OWN_RESET: u32 = 0x4FD80000;

const OWN_WRITE: u32 = 0xE7D80041;

const OWN_LOW: u32 = 0xCFD80000;

const OWN_RISE: u32 = 0xDFD80000;

const OWN_RETRANSMIT: u32 = 0xDF580000;

// Reset into Standard.
const IN_STANDARD: [u32; 1] = [0x4F980000];

// A word written and a retransmit that its write side has not seen, WCLK LOW.
const UNSEEN: [u32; 4] = [OWN_RESET, OWN_WRITE, OWN_LOW, OWN_RETRANSMIT];

// A word written, which stands in the output register after four rises of RCLK, both clocks LOW.
const READY: [u32; 11] = [
    OWN_RESET, OWN_WRITE, OWN_LOW, OWN_RISE, OWN_LOW, OWN_RISE, OWN_LOW, OWN_RISE, OWN_LOW,
    OWN_RISE, OWN_LOW,
];

// What is handed in, and the name of its line.
#[derive(Clone, Copy)]
struct Case<'a> {
    name: &'static str,
    part: u32,
    record: &'a [u8],
    row: Row,
}

impl<'a> Case<'a> {
    fn new(name: &'static str, record: &'a [u8], row: Row) -> Self {
        Case {
            name,
            part: 255,
            record,
            row,
        }
    }

    fn of_part(self, part: u32) -> Self {
        Case { part, ..self }
    }

    fn print(self, out: &impl Print) -> io::Result<()> {
        let mut memory = [0u32; 16384];
        let worked = chain_runs::sample::sample(self.part, self.record, self.row, &mut memory);
        let outcome = chain_runs::sample::outcome_of(worked);
        let number = fifo::outcome::number_of(outcome);
        println!(out; "{} {number:02}", self.name)
    }
}

fn main(rt: HostRuntime) -> io::Result<()> {
    let powered = rows::row::power_up(2);
    let mut memory = [0u32; 16384];
    let sampled = chain_runs::sample::sample(255, &RESET, powered, &mut memory);
    let reset = chain_runs::sample::row_of(sampled);
    print_early(&rt, reset)?;
    print_records(&rt, powered, reset)?;
    print_unseen(&rt, reset)
}

// Before any record: 1, 13, 2 and 3; and 4 for another length.
fn print_early(out: &impl Print, row: Row) -> io::Result<()> {
    let wide = with_first(row, wide_output(row.states[0]));
    let mixed = with_second(row, left_by(&IN_STANDARD));
    print_all(
        out,
        &[
            Case::new("taken", &WRITE, row),
            Case::new("part", &WRITE, row).of_part(256),
            Case::new("few", &WRITE, Row { count: 1, ..row }),
            Case::new("many", &WRITE, Row { count: 9, ..row }),
            Case::new("memory", &WRITE, row).of_part(265),
            Case::new("output", &WRITE, wide),
            Case::new("standard", &WRITE, mixed),
            Case::new("length", &WRITE[..6], row),
        ],
    )
}

fn print_records(out: &impl Print, powered: Row, row: Row) -> io::Result<()> {
    let half = with_second(row, powered.states[0]);
    print_all(
        out,
        &[
            Case::new("spare", &SPARE, row),
            Case::new("unstarted", &WRITE, powered),
            Case::new("half-started", &RETRANSMIT, half),
            Case::new("retransmit", &RETRANSMIT, row),
            Case::new("into-standard", &STANDARD, row),
            Case::new("unsettled", &MOVING, row),
        ],
    )
}

// 10: a write asked of a part that has not seen its retransmit, by a transfer to the second part and by the record to the first, where 12 would come
// after it.
fn print_unseen(out: &impl Print, row: Row) -> io::Result<()> {
    let unseen = left_by(&UNSEEN);
    let second = with_first(with_second(row, unseen), left_by(&READY));
    let first = with_first(row, unseen);
    print_all(
        out,
        &[
            Case::new("unseen", &TRANSFER, second),
            Case::new("unseen-first", &MOVING, first),
        ],
    )
}

fn print_all(out: &impl Print, cases: &[Case]) -> io::Result<()> {
    for case in cases {
        case.print(out)?;
    }
    Ok(())
}

fn with_first(row: Row, s: State) -> Row {
    rows::row::with_state(row, 0, s)
}

fn with_second(row: Row, s: State) -> Row {
    rows::row::with_state(row, 1, s)
}

fn wide_output(s: State) -> State {
    let mut changed = s;
    changed.read.output = 1 << 18;
    changed
}

// By a part 255 by itself, from power-up.
fn left_by(records: &[u32]) -> State {
    let mut memory = [0u32; 8192];
    let mut s = chip::reset::power_up();
    for &record in records {
        let sampled = fifo::sample::sample(255, record, s, &mut memory);
        s = sampled.state;
    }
    s
}
