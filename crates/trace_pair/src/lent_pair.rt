// Two parts side by side, run over a chunk of their samples.
ghost use Rattle.std.proofs.Common.{rules};

use super::composites;
use halves::state::Halves;
use input::chunks::RECORDS;
use input::manner::Manner;
use lines::records::Shown;
use trace_program::traced::{Ran, Traced};

const BYTES: usize = RECORDS * 8;

const ANSWERS: usize = RECORDS * 6;

// The flags are room for those of a chunk's lines.
#[derive(Drop)]
pub(crate) struct LentPair<'a> {
    pub(crate) manner: Manner,
    pub(crate) number: u32,
    pub(crate) left: &'a mut [u32],
    pub(crate) right: &'a mut [u32],
    pub(crate) flags: &'a mut [u8; RECORDS * 2],
}

impl Traced<BYTES, ANSWERS> for LentPair<'_> {
    type State = Halves;

    ghost sized = { Prim.search rules };

    const SHOWS_ROOMS: bool = true;

    fn power_up(&self) -> Halves {
        halves::state::power_up()
    }

    fn run(
        &mut self,
        trace: &[u8],
        state: Halves,
        answers: &mut [u8; ANSWERS],
        marks: &mut [u8; RECORDS],
    ) -> Ran<Halves> {
        let number = self.number;
        let ran = match self.manner {
            Manner::Strict => {
                pair_runs::run::run(number, trace, state, self.left, self.right, answers)
            }
            Manner::Lenient => {
                pair_runs::run::run_lenient(
                    number, trace, state, self.left, self.right, answers, marks,
                )
            }
        };
        Ran {
            state: ran.state,
            accepted: ran.accepted,
            index: ran.index,
            refusal: ran.refusal,
        }
    }

    fn show_rooms<'a>(
        &'a mut self,
        before: Halves,
        trace: &[u8; BYTES],
        answers: &'a [u8; ANSWERS],
        marks: &[u8],
    ) -> Shown<'a> {
        composites::show(before, trace, answers, marks, self.flags)
    }
}
