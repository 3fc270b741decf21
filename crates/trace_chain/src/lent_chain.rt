// Parts in a row, run over a chunk of their records.
ghost use Rattle.std.proofs.Common.{rules};

use input::chunks::RECORDS;
use input::manner::Manner;
use rows::row::Row;
use trace_program::traced::{Ran, Traced};

const BYTES: usize = RECORDS * 7;

const ANSWERS: usize = RECORDS * 3;

#[derive(Drop)]
pub(crate) struct LentChain<'a> {
    pub(crate) manner: Manner,
    pub(crate) number: u32,
    pub(crate) parts: usize,
    pub(crate) memory: &'a mut [u32],
}

impl Traced<BYTES, ANSWERS> for LentChain<'_> {
    type State = Row;

    ghost sized = { Prim.search rules };

    fn power_up(&self) -> Row {
        rows::row::power_up(self.parts)
    }

    fn run(
        &mut self,
        trace: &[u8],
        row: Row,
        answers: &mut [u8; ANSWERS],
        marks: &mut [u8; RECORDS],
    ) -> Ran<Row> {
        let lenient = self.manner == Manner::Lenient;
        let ran = chain_runs::run::run(
            lenient,
            self.number,
            trace,
            row,
            self.memory,
            answers,
            marks,
        );
        Ran {
            state: ran.row,
            accepted: ran.accepted,
            index: ran.index,
            refusal: ran.refusal,
        }
    }
}
