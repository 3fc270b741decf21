// Tables 1 and 2 of source document 000 as the model has them, for both parts and the offsets that a Master Reset gives. docs/FLAGS.md ends with these
// lines.
#![tactic(auto)]

mod bounds;
mod shown;

ghost use Rattle.views.specs.Tables.{beyond_memory, limits_of};
ghost use Rattle.counts.specs.Part.{depth_of};
ghost use Rattle.offsets.specs.Registers.{defaults};
ghost use Rattle.std.specs.Prelude.{◌≡◌};

use counts::part::Part;
use shown::{Counts, Thousands};
use std::io;
use views::tables::{Limits, Row, Table};

const ROWS: [Row; 6] = [
    Row::Empty,
    Row::AlmostEmpty,
    Row::ToHalf,
    Row::AboveHalf,
    Row::AlmostFull,
    Row::Full,
];

fn main(rt: HostRuntime) -> io::Result<()> {
    for table in [Table::One, Table::Two] {
        for ld in [false, true] {
            print_table(&rt, table, ld)?;
        }
    }
    Ok(())
}

// `ld` is the level of LD in the Master Reset.
fn print_table(out: &impl Print, table: Table, ld: bool) -> io::Result<()> {
    let title = match table {
        Table::One => "Table 1, IDT Standard mode",
        Table::Two => "Table 2, FWFT mode",
    };
    let offsets = offsets::registers::reset_offsets(ld);
    let n = Thousands(u32::from(offsets.n));
    let m = Thousands(u32::from(offsets.m));
    println!(out; "\n### {title}, n = {n}, m = {m}\n")?;
    println!(out; "| 72V255LA | 72V265LA | PAF | HF | PAE |\n|---|---|---|---|---|")?;
    let small = limits_by(table, Part::Idt72V255LA, ld);
    let large = limits_by(table, Part::Idt72V265LA, ld);
    for row in ROWS {
        print_row(out, small, large, row)?;
    }
    Ok(())
}

#[tactic(auto, unfolding(offsets::specs::Registers::defaults))]
fn limits_by(table: Table, part: Part, ld: bool) -> Limits
    ensures { result ≡ limits_of (beyond_memory table) (depth_of part) (defaults ld).n (defaults ld).m }
{
    let offsets = offsets::registers::reset_offsets(ld);
    let beyond = views::tables::beyond_memory(table);
    views::tables::limits_of(beyond, counts::part::depth(part), offsets.n, offsets.m)
}

fn print_row(out: &impl Print, small: Limits, large: Limits, row: Row) -> io::Result<()> {
    let small = Counts::of(small, row);
    let large = Counts::of(large, row);
    let paf = letter_of(views::tables::paf_level(row));
    let hf = letter_of(views::tables::hf_level(row));
    let pae = letter_of(views::tables::pae_level(row));
    println!(out; "| {small} | {large} | {paf} | {hf} | {pae} |")
}

fn letter_of(level: bool) -> char {
    if level { 'H' } else { 'L' }
}
