// One part, run over a chunk of its records.
ghost use Rattle.std.proofs.Common.{rules};

use chip::state::State;
use input::chunks::RECORDS;
use input::manner::Manner;
use trace_program::traced::{Ran, Traced};

const BYTES: usize = RECORDS * 4;

const ANSWERS: usize = RECORDS * 3;

#[derive(Drop)]
pub(crate) struct LentPart<'a> {
    pub(crate) manner: Manner,
    pub(crate) number: u32,
    pub(crate) memory: &'a mut [u32],
}

impl Traced<BYTES, ANSWERS> for LentPart<'_> {
    type State = State;

    ghost sized = { Prim.search rules };

    fn power_up(&self) -> State {
        chip::reset::power_up()
    }

    fn run(
        &mut self,
        trace: &[u8],
        state: State,
        answers: &mut [u8; ANSWERS],
        marks: &mut [u8; RECORDS],
    ) -> Ran<State> {
        let ran = match self.manner {
            Manner::Strict => runs::run::run(self.number, trace, state, self.memory, answers),
            Manner::Lenient => {
                runs::run::run_lenient(self.number, trace, state, self.memory, answers, marks)
            }
        };
        Ran {
            state: ran.state,
            accepted: ran.accepted,
            index: ran.index,
            refusal: ran.refusal,
        }
    }
}
