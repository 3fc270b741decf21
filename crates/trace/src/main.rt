// The trace program: a part number and records on standard input, a line for each record on standard output.
#![tactic(auto)]

mod lent_part;

use input::manner::Manner;
use input::{header, manner, memory};
use lent_part::LentPart;
use trace_program::chunks;

fn main(rt: HostRuntime) {
    match manner::asked(&rt) {
        Ok(manner) => trace(&rt, manner),
        Err(_) => manner::complain(&mut rt.stderr(), b"trace"),
    }
}

// The run itself turns an unknown part away, whatever memory it is lent.
fn trace(rt: &HostRuntime, manner: Manner) {
    let mut stdin = rt.stdin();
    let number = header::read_part_number(&mut stdin);
    let words = memory::words(number);
    let mut memory = [0u32; memory::MOST];
    let part = LentPart {
        manner,
        number,
        memory: &mut memory[..words],
    };
    chunks::work_all(part, &mut stdin, rt);
}
