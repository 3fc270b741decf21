// One sample of a chain on a record of seven bytes: a run over that record alone.
ghost use Rattle.chain_runs.specs.Outcome.{worked_in_numbers};
ghost use Rattle.fifo.specs.Outcome.{Refused, in_numbers};
ghost use Rattle.refusal_kinds.specs.Numbers.{number, number_of};
ghost use Rattle.chain_runs.specs.Sample.{SamplesRow, outcome_by};
ghost use Rattle.std.specs.Prelude.{◌≡◌};

use refusal_kinds::Refusal;
use rows::row::Row;

#[derive(Clone, Copy)]
pub struct Worked {
    pub outcome: Result<u32, Refusal>,
    pub row: Row,
}

pub fn sample(part: u32, bytes: &[u8], row: Row, memory: &mut [u32]) -> Worked
    ensures { SamplesRow part bytes.now row memory.old (worked_in_numbers result) memory.new }
{
    let tested = super::testing::test(part, row, memory.len(), true);
    match tested {
        Err(refusal) => turn_away(refusal, row),
        Ok(known) => {
            if bytes.len() != 7 {
                return turn_away(Refusal::UnreadableRecord, row);
            }
            let mut answer = [0u8; 3];
            let mut none = [0u8; 1];
            let ran = chain_work::work::work(
                false,
                known,
                bytes,
                row,
                memory,
                &mut answer,
                &mut none[..0],
            );
            let word = pins::trace::word_of(0, answer[0], answer[1], answer[2]);
            let outcome = outcome_by(refusal_kinds::of_number(ran.refusal), word);
            let after = ran.row;
            Worked {
                outcome: outcome,
                row: after,
            }
        }
    }
}

fn turn_away(refusal: Refusal, row: Row) -> Worked
    ensures { worked_in_numbers result ≡ record { outcome = Refused (number refusal); row = row } }
{
    Worked {
        outcome: Err(refusal),
        row: row,
    }
}

fn outcome_by(refusal: Option<Refusal>, answer: u32) -> Result<u32, Refusal>
    ensures { in_numbers result ≡ outcome_by (number_of refusal) answer }
{
    match refusal {
        None => Ok(answer),
        Some(refusal) => Err(refusal),
    }
}

pub fn row_of(worked: Worked) -> Row
    ensures { result ≡ worked.row }
{
    worked.row
}

pub fn outcome_of(worked: Worked) -> Result<u32, Refusal>
    ensures { result ≡ worked.outcome }
{
    worked.outcome
}
