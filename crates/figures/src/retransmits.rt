// Retransmit, and how many words it may follow (What is turned away, 9).
use super::bench::Bench;
use super::steps;
use std::io;

pub(crate) fn print_retransmits(bench: &mut Bench<impl Print>) -> io::Result<()> {
    print_most(bench)?;
    print_waiting(bench)
}

fn print_most(bench: &mut Bench<impl Print>) -> io::Result<()> {
    let full = bench.depth() + bench.beside();
    bench.power_up();
    for words in [0, 1, full - 2, full - 1] {
        bench.play_on(&[
            steps::reset(),
            steps::write(words),
            steps::settle(),
            steps::retransmit().numbered("retransmit", words),
        ])?;
    }
    Ok(())
}

// One word more than the offset, three of them read: PAE is LOW until the retransmit is worked out.
fn print_waiting(bench: &mut Bench<impl Print>) -> io::Result<()> {
    bench.play(&[
        steps::reset(),
        steps::write(128),
        steps::settle(),
        steps::read(3).shown("three-read"),
        steps::enables_high(),
        steps::retransmit().numbered("rises-after-retransmit", 0),
        steps::run_rclk(1).numbered("rises-after-retransmit", 1),
        steps::run_rclk(1).numbered("rises-after-retransmit", 2),
        steps::run_rclk(1).numbered("rises-after-retransmit", 3),
        steps::read(1).shown("read-again"),
    ])
}

pub(crate) fn print_falls(bench: &mut Bench<impl Print>) -> io::Result<()> {
    print_after_enable(bench)?;
    print_at_fall(bench)?;
    print_in_reset(bench)
}

// Enables before retransmit: RT falls right after a write, with a second rise at the same LOW, and right after a read; each time again
// with one sample between.
fn print_after_enable(bench: &mut Bench<impl Print>) -> io::Result<()> {
    bench.play(&[
        steps::reset(),
        steps::write(3),
        steps::retransmit().shown("fall-after-write"),
        steps::retransmit().at_once().shown("fall-not-ended"),
        steps::enables_high(),
        steps::retransmit().shown("fall-later"),
        steps::run_rclk(3),
        steps::read(1),
        steps::retransmit().shown("fall-after-read"),
        steps::enables_high(),
        steps::retransmit().shown("fall-later-again"),
        steps::run_rclk(3).shown("word-after-fall"),
    ])
}

// An enable LOW at the fall, and one LOW between the fall and the rise.
fn print_at_fall(bench: &mut Bench<impl Print>) -> io::Result<()> {
    bench.play(&[
        steps::reset(),
        steps::write(3),
        steps::enables_high(),
        steps::rt_and_ren_low(),
        steps::retransmit().shown("fall-with-read-enable"),
        steps::write_rt_low(1).shown("write-after-fall"),
        steps::enables_high(),
        steps::rt_low(),
        steps::write_rt_low(1).shown("write-between"),
        steps::retransmit().shown("retransmit-after-write-between"),
    ])
}

// A fall in a reset is one like any other, and no reset forgets one. Where the fall was unclean, a sample comes after the reset that would be
// a clean fall if it were forgotten.
fn print_in_reset(bench: &mut Bench<impl Print>) -> io::Result<()> {
    bench.play(&[
        steps::reset_rt_and_wen_low(),
        steps::rt_low(),
        steps::write_rt_low(3),
        steps::retransmit().shown("fall-in-master-reset"),
        steps::enables_high(),
        steps::partial_reset_rt_low(),
        steps::write_rt_low(3),
        steps::retransmit().shown("fall-in-partial-reset"),
        steps::enables_high(),
        steps::run_wclk(2),
        steps::write(1),
        steps::rt_low(),
        steps::partial_reset_rt_low(),
        steps::rt_low(),
        steps::write_rt_low(3),
        steps::retransmit().shown("fall-before-partial-reset"),
        steps::reset_rt_low(),
        steps::rt_low(),
        steps::write_rt_low(3),
        steps::retransmit().shown("fall-before-master-reset"),
    ])
}
