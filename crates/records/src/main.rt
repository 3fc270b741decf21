// What stands at each index of a trace: first where two bytes are left over after the last record, then where none are. A record
// whose D was still moving is marked.
#![tactic(auto)]

use pins::trace::Record;
use std::io;

fn print_found(out: &impl Print, found: Record) -> io::Result<()> {
    match found {
        Record::Whole(word, unsettled) => {
            let mark = if unsettled { " unsettled" } else { "" };
            println!(out; "{word:08x}{mark}")
        }
        Record::Leftover => println!(out; "leftover"),
        Record::End => println!(out; "end"),
    }
}

fn print_three(out: &impl Print, trace: &[u8]) -> io::Result<()> {
    for index in 0..3 {
        print_found(out, reader::record_of(trace, index))?;
    }
    Ok(())
}

fn main(rt: HostRuntime) -> io::Result<()> {
    print_three(&rt, b"\x00\x07\xe1\x2d\xa5\x00\x00\xff\x10\x20")?;
    print_three(&rt, b"\x00\x07\xe1\x2d\xa5\x00\x00\xff")
}
