// Bench figures, the listing.
use super::bench::{Bench, Mode};
use super::steps;
use super::steps::Label;
use counts::part::Part;
use std::io;

const LISTING: [u32; 9] = [
    0x4D980000, 0xC7980041, 0xE7980041, 0xCF980000, 0xDF980000, 0xCF980000, 0xDF980000, 0xCB980000,
    0xDB980000,
];

pub(crate) fn print_listing(out: &impl Print, memory: &mut [u32]) -> io::Result<()> {
    let mut bench = Bench::new(out, Part::Idt72V255LA, Mode::Standard, memory);
    for (number, &record) in (0..9).zip(&LISTING) {
        bench.play_record(record, Label::numbered("listing", number))?;
    }
    // The same nine records made from the pins' names: the other figures stand on these steps.
    bench.play(&[
        steps::reset(),
        steps::put(0x41),
        steps::run_rclk(2),
        steps::read(1).shown("named"),
    ])
}
