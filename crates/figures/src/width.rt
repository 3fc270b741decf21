// The two sides: counts that pass the largest number of their width, and no answer changes for it.
use super::bench::Bench;
use super::steps;
use std::io;

// Words that are so far apart have the same counts.
const WIDTH: u32 = 65536;

// At half of the depth, so that HF goes LOW with one word more. Words that are a width apart look the same.
pub(crate) fn print_past_width(bench: &mut Bench<impl Print>) -> io::Result<()> {
    let half = bench.depth() / 2 + bench.beside();
    bench.play(&[
        steps::reset(),
        steps::write(half),
        steps::settle(),
        steps::turn(1000),
        steps::settle().numbered("turns", 1000),
        steps::turn(WIDTH),
        steps::settle().numbered("turns", 1000 + WIDTH),
        steps::write(1).shown("one-word-more"),
        steps::enables_high(),
        steps::retransmit().shown("retransmit-past-width"),
    ])
}

pub(crate) fn print_rounds(bench: &mut Bench<impl Print>) -> io::Result<()> {
    print_round_empty(bench)?;
    print_round_half(bench)?;
    print_round_full(bench)
}

// Offsets of n = 1 and m = 2, and no word but those that the turns need. Then EF and PAE change both ways where the write
// count goes round, and the read count after it.
fn print_round_empty(bench: &mut Bench<impl Print>) -> io::Result<()> {
    let beside = bench.beside();
    let needed = 3 + beside;
    bench.play(&[
        steps::reset(),
        steps::load(1),
        steps::load(2),
        steps::write(needed),
        steps::settle(),
        steps::turn(WIDTH - needed - beside - 2),
        steps::read(needed).shown("round-no-word"),
        steps::write(1),
        steps::settle().shown("round-one-word"),
        steps::write(1 + beside),
        steps::settle().shown("round-two-words"),
        steps::read(1).shown("round-one-left"),
        steps::read(1 + beside).shown("round-none-left"),
    ])
}

fn print_round_half(bench: &mut Bench<impl Print>) -> io::Result<()> {
    let half = bench.depth() / 2 + bench.beside();
    bench.play(&[
        steps::reset(),
        steps::write(half),
        steps::settle(),
        steps::turn(WIDTH - half - 1),
        steps::settle().shown("round-half"),
        steps::write(1).shown("round-half-and-one"),
        steps::read(1).shown("round-half-again"),
    ])
}

// Three words short of full, since a turn is seen late. Then PAF and FF change both ways where the write count goes round,
// and again where the read count does.
fn print_round_full(bench: &mut Bench<impl Print>) -> io::Result<()> {
    let depth = bench.depth();
    let short = depth + bench.beside() - 3;
    bench.play(&[
        steps::reset(),
        steps::load(1),
        steps::load(2),
        steps::write(short),
        steps::settle(),
        steps::turn(WIDTH - short - 2),
        steps::settle().shown("round-three-short"),
        steps::write(1).shown("round-two-short"),
        steps::write(2).shown("round-full"),
        steps::read(1).shown("round-full-and-read"),
        steps::run_wclk(1).shown("round-first-rise"),
        steps::run_wclk(1).shown("round-second-rise"),
        steps::read(2),
        steps::run_wclk(2).shown("round-three-short-again"),
        steps::turn(depth - 6),
        steps::settle(),
        steps::write(3).shown("round-full-again"),
        steps::read(2),
        steps::run_wclk(1).shown("round-first-rise-again"),
        steps::run_wclk(1).shown("round-second-rise-again"),
        steps::read(1),
        steps::run_wclk(2).shown("round-three-short-at-last"),
    ])
}
