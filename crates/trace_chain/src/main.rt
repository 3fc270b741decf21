// The trace program for parts in a row: a part number, the number of parts and chain records on standard input, a line for each
// record on standard output.
#![tactic(auto)]

mod lent_chain;

use input::manner::Manner;
use input::{header, manner, memory};
use lent_chain::LentChain;
use trace_program::chunks;

fn main(rt: HostRuntime) {
    match manner::asked(&rt) {
        Ok(manner) => trace(&rt, manner),
        Err(_) => manner::complain(&mut rt.stderr(), b"trace_chain"),
    }
}

// The run itself turns an unknown part away, and parts that are too few or too many for a row, whatever memory it is lent.
fn trace(rt: &HostRuntime, manner: Manner) {
    let mut stdin = rt.stdin();
    let number = header::read_part_number(&mut stdin);
    let parts = header::read_count_of_parts(&mut stdin);
    let words = memory::words_of_row(number, parts);
    let mut memory = [0u32; memory::MOST_OF_ROW];
    let chain = LentChain {
        manner,
        number,
        parts,
        memory: &mut memory[..words],
    };
    chunks::work_all(chain, &mut stdin, rt);
}
