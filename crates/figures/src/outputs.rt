// Q: not driven, and showing an offset (Trace sample, Offsets).
use super::bench::{Bench, Mode};
use super::steps;
use std::io;

pub(crate) fn print_outputs(bench: &mut Bench<impl Print>) -> io::Result<()> {
    print_word(bench)?;
    print_parallel(bench)?;
    print_serial(bench)
}

fn print_word(bench: &mut Bench<impl Print>) -> io::Result<()> {
    // The word comes into the output register: in FWFT it falls through, in Standard it is read.
    let reads = match bench.mode {
        Mode::Standard => 1,
        Mode::Fwft => 0,
    };
    bench.play(&[
        steps::reset(),
        steps::put(0x41),
        steps::settle(),
        steps::read(reads).shown("word-on-q"),
        steps::output_off().shown("oe-high"),
        steps::idle(1).shown("oe-low-again"),
        steps::load(0x155),
        steps::load(0x0AA),
        steps::read_offset().shown("offset-n-on-q"),
        steps::read_offset().shown("offset-m-on-q"),
        steps::run_rclk(1).shown("word-on-q-again"),
    ])
}

// Offsets are of 13 bits and of 14: higher bits are ignored.
fn print_parallel(bench: &mut Bench<impl Print>) -> io::Result<()> {
    bench.play(&[
        steps::reset(),
        steps::load(0x3FFFF),
        steps::load(0x2000),
        steps::read_offset().shown("offset-n-all-ones"),
        steps::read_offset().shown("offset-m-bit-13"),
    ])
}

// The least bit of n and the greatest of m are 1. One bit short of both the old offsets still stand.
fn print_serial(bench: &mut Bench<impl Print>) -> io::Result<()> {
    let between = bench.serial_bits() - 2;
    bench.play(&[
        steps::reset_serial(),
        steps::ones(1),
        steps::zeros(between),
        steps::read_offset().shown("serial-n-one-bit-short"),
        steps::read_offset().shown("serial-m-one-bit-short"),
        steps::ones(1),
        steps::read_offset().shown("serial-n"),
        steps::read_offset().shown("serial-m"),
    ])
}
