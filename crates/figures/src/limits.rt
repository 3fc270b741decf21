// Bench figures, the part headed More: the flags at their limits, with offsets of 127. Both sides of a limit are shown, so
// many words in memory and one more.
use super::bench::Bench;
use super::steps;
use std::io;

pub(crate) fn print_limits(bench: &mut Bench<impl Print>) -> io::Result<()> {
    let beside = bench.beside();
    let half = bench.depth() / 2 + beside;
    let full = bench.depth() + beside;
    bench.play(&[steps::reset().shown("reset")])?;
    for (flag, words) in [
        ("hf", half),
        ("hf", half + 1),
        ("paf", full - 128),
        ("paf", full - 127),
        ("pae", 127 + beside),
        ("pae", 128 + beside),
    ] {
        bench.play_on(&[
            steps::reset(),
            steps::write(words),
            steps::settle().numbered(flag, words),
        ])?;
    }
    Ok(())
}

pub(crate) fn print_full(bench: &mut Bench<impl Print>) -> io::Result<()> {
    let depth = bench.depth();
    bench.play(&[
        steps::reset(),
        steps::write(depth).shown("full-rclk-still"),
        steps::run_rclk(1000).shown("full-rclk-running"),
    ])
}
