// The trace program for two parts side by side: a part number and samples of two records, left and right, on standard input, a
// line for each sample on standard output.
#![tactic(auto)]

mod composites;
mod lent_pair;

use input::chunks::RECORDS;
use input::manner::Manner;
use input::{header, manner, memory};
use lent_pair::LentPair;
use trace_program::chunks;

fn main(rt: HostRuntime) {
    match manner::asked(&rt) {
        Ok(manner) => trace(&rt, manner),
        Err(_) => manner::complain(&mut rt.stderr(), b"trace_pair"),
    }
}

// The run itself turns an unknown part away, whatever memories it is lent.
fn trace(rt: &HostRuntime, manner: Manner) {
    let mut stdin = rt.stdin();
    let number = header::read_part_number(&mut stdin);
    let words = memory::words(number);
    let mut left = [0u32; memory::MOST];
    let mut right = [0u32; memory::MOST];
    let mut flags = [0u8; RECORDS * 2];
    let pair = LentPair {
        manner,
        number,
        left: &mut left[..words],
        right: &mut right[..words],
        flags: &mut flags,
    };
    chunks::work_all(pair, &mut stdin, rt);
}
