// The paper's figures: the model driven sample by sample, a line for each. `stdout` has the lines that are expected.
#![tactic(auto)]

mod bench;
mod limits;
mod listing;
mod outputs;
mod retransmits;
mod steps;
mod traces;
mod turned_away;
mod width;

use bench::{Bench, Mode};
use counts::part::Part;
use std::io;

fn main(rt: HostRuntime) -> io::Result<()> {
    let mut small = [0u32; 8192];
    let mut large = [0u32; 16384];
    listing::print_listing(&rt, &mut small)?;
    print_part(&rt, Part::Idt72V255LA, &mut small)?;
    print_part(&rt, Part::Idt72V265LA, &mut large)
}

fn print_part(out: &impl Print, part: Part, memory: &mut [u32]) -> io::Result<()> {
    print_mode(&mut Bench::new(out, part, Mode::Standard, memory))?;
    print_mode(&mut Bench::new(out, part, Mode::Fwft, memory))?;
    let mut bench = Bench::new(out, part, Mode::Standard, memory);
    limits::print_full(&mut bench)?;
    turned_away::print_refusals(&mut bench)?;
    traces::print_runs(&mut bench)
}

fn print_mode(bench: &mut Bench<impl Print>) -> io::Result<()> {
    limits::print_limits(bench)?;
    retransmits::print_retransmits(bench)?;
    retransmits::print_falls(bench)?;
    outputs::print_outputs(bench)?;
    width::print_past_width(bench)?;
    width::print_rounds(bench)
}
