// What is turned away, on whole traces: where a run ends, and with which number.
use super::bench::Bench;
use std::{fmt, io};

const RESET_AND_TWO_BYTES: [u8; 6] = [0x4D, 0x98, 0x00, 0x00, 0xC7, 0x98];

// A record before the Master Reset, which is refused, and the reset.
const EARLY: [u8; 8] = [0xC7, 0x98, 0x00, 0x00, 0x4D, 0x98, 0x00, 0x00];

#[derive(Clone, Copy)]
enum Kind {
    Strict,
    Lenient,
}

impl fmt::Display for Kind {
    fn fmt<W: fmt::Write>(&self, f: &mut fmt::Formatter<W>) -> fmt::Result {
        match self {
            Kind::Strict => f.write_str("strict"),
            Kind::Lenient => f.write_str("lenient"),
        }
    }
}

pub(crate) fn print_runs(bench: &mut Bench<impl Print>) -> io::Result<()> {
    for (kind, name, trace) in [
        (Kind::Strict, "empty", &RESET_AND_TWO_BYTES[..0]),
        (Kind::Strict, "one-byte", &RESET_AND_TWO_BYTES[..1]),
        (Kind::Strict, "reset", &RESET_AND_TWO_BYTES[..4]),
        (Kind::Strict, "leftover", &RESET_AND_TWO_BYTES[..]),
        (Kind::Strict, "early", &EARLY[..]),
        (Kind::Lenient, "early", &EARLY[..]),
    ] {
        print_run(bench, kind, name, trace)?;
    }
    Ok(())
}

// The records accepted, the index at which the run ended, and the refusal.
fn print_run(
    bench: &mut Bench<impl Print>,
    kind: Kind,
    name: &str,
    trace: &[u8],
) -> io::Result<()> {
    let number = bench.number();
    let state = chip::reset::power_up();
    let mut answers = [0u8; 6];
    let mut marks = [0u8; 2];
    let ran = match kind {
        Kind::Strict => runs::run::run(number, trace, state, bench.memory, &mut answers),
        Kind::Lenient => runs::run::run_lenient(
            number,
            trace,
            state,
            bench.memory,
            &mut answers,
            &mut marks,
        ),
    };
    let accepted = ran.accepted;
    let index = ran.index;
    let refusal = ran.refusal;
    println!(bench.out;
        "{number}-{kind}-{name} accepted {accepted} ended at {index} with {refusal}"
    )
}
