// What is turned away: a sample for each number that one can get, and the answer to the next one. No LOW sample comes in between: the
// refused one must not have moved RCLK's last level either.
use super::bench::Bench;
use super::steps::{self, Handed, Step};
use std::io;

pub(crate) fn print_refusals(bench: &mut Bench<impl Print>) -> io::Result<()> {
    print_calls(bench)?;
    print_no_reset(bench)?;
    print_pins(bench)?;
    print_not_seen(bench)?;
    print_unknown_word(bench)?;
    print_no_word_asked(bench)
}

fn word() -> Step {
    steps::put(0x41)
}

fn next() -> Step {
    steps::read(1).at_once()
}

// After a word that the read side sees, and both clocks LOW: a rise of RCLK can read it.
fn print_refusal(
    bench: &mut Bench<impl Print>,
    number: u32,
    refused: Step,
    next: Step,
) -> io::Result<()> {
    bench.play_on(&[
        steps::reset(),
        word(),
        steps::settle(),
        steps::idle(1),
        refused.at_once().numbered("refusal", number),
        next.numbered("next-after-refusal", number),
    ])
}

// What the caller hands in.
fn print_calls(bench: &mut Bench<impl Print>) -> io::Result<()> {
    bench.power_up();
    print_refusal(bench, 1, next().handing(Handed::OtherPart), next())?;
    print_refusal(bench, 2, next().handing(Handed::ShortMemory), next())?;
    // Wider than its bits, and put right again.
    print_refusal(
        bench,
        3,
        next().handing(Handed::Output(1 << 18)),
        next().handing(Handed::Output(0)),
    )
}

fn print_no_reset(bench: &mut Bench<impl Print>) -> io::Result<()> {
    bench.play(&[
        next().numbered("refusal", 5),
        steps::reset().numbered("next-after-refusal", 5),
    ])
}

fn print_pins(bench: &mut Bench<impl Print>) -> io::Result<()> {
    bench.power_up();
    print_refusal(bench, 6, steps::two_enables(), next())?;
    print_refusal(bench, 7, steps::zeros(1), next())?;
    print_refusal(bench, 8, steps::retransmit_and_read(), next())?;
    bench.play_on(&[
        steps::reset(),
        steps::retransmit().at_once().numbered("refusal", 9),
        next().numbered("next-after-refusal", 9),
    ])
}

// The next sample is the first rise after the retransmit. Without it, two rises of WCLK later the write is taken.
fn print_not_seen(bench: &mut Bench<impl Print>) -> io::Result<()> {
    bench.play(&[
        steps::reset(),
        word(),
        steps::settle(),
        steps::retransmit(),
        steps::idle(1),
        word().at_once().numbered("refusal", 10),
        next().numbered("next-after-refusal", 10),
        steps::reset(),
        word(),
        steps::settle(),
        steps::retransmit(),
        steps::run_wclk(2),
        word().shown("write-after-seen"),
    ])
}

// D still moving where a word is asked for: a write, one while the part is full, a parallel load, and a write after a retransmit
// that is not yet seen and then is.
fn print_unknown_word(bench: &mut Bench<impl Print>) -> io::Result<()> {
    let depth = bench.depth();
    bench.power_up();
    print_refusal(bench, 12, word().unsettled(), next())?;
    bench.play_on(&[
        steps::reset(),
        steps::write(depth),
        word().unsettled().shown("unsettled-while-full"),
        steps::reset(),
        steps::load(0).unsettled().shown("unsettled-load"),
        steps::read_offset().shown("offset-after-unsettled-load"),
        word(),
        steps::enables_high(),
        steps::retransmit(),
        word().unsettled().shown("unsettled-before-seen"),
        steps::run_wclk(2),
        word().unsettled().shown("unsettled-once-seen"),
    ])
}

// And where none is: before the Master Reset, in both resets, at a rise of WCLK with WEN HIGH, without a rise, at a read and
// with a serial bit.
fn print_no_word_asked(bench: &mut Bench<impl Print>) -> io::Result<()> {
    bench.play(&[
        word().unsettled().shown("unsettled-before-reset"),
        steps::reset_and_write()
            .unsettled()
            .shown("unsettled-in-master-reset"),
        steps::partial_reset_and_write()
            .unsettled()
            .shown("unsettled-in-partial-reset"),
        steps::run_wclk(1).unsettled().shown("unsettled-not-asked"),
        steps::idle(1).unsettled().shown("unsettled-no-rise"),
        word(),
        steps::settle(),
        steps::read(1).unsettled().shown("unsettled-read"),
        steps::reset_serial(),
        steps::zeros(1).unsettled().shown("unsettled-serial-bit"),
    ])
}
