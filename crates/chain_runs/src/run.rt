// A run of a chain over a whole trace, strict or lenient.
ghost use Rattle.chain_runs.specs.Run.{RunsRow, report_of};
ghost use Rattle.std.specs.Prelude.{◌≡◌};

use chain_work::work::Ran;
use rows::row::Row;

// Where a run ended, without the states.
#[derive(Clone, Copy)]
pub struct Report {
    pub accepted: usize,
    pub index: usize,
    pub refusal: u8,
}

// A strict run leaves the marks as they are.
pub fn run(
    lenient: bool,
    part: u32,
    trace: &[u8],
    row: Row,
    memory: &mut [u32],
    answers: &mut [u8],
    marks: &mut [u8],
) -> Ran
    ensures { RunsRow lenient part trace.now row memory.old answers.old marks.old result memory.new answers.new marks.new }
{
    let whole = trace.len() / 7;
    let roomy = notes::answers::is_roomy(lenient, whole * 3, whole, answers.len(), marks.len());
    let tested = super::testing::test(part, row, memory.len(), roomy);
    match tested {
        Ok(known) => { chain_work::work::work(lenient, known, trace, row, memory, answers, marks) }
        Err(refusal) => chain_work::work::end_at(0, 0, refusal.number(), row),
    }
}

pub fn row_of(ran: Ran) -> Row
    ensures { result ≡ ran.row }
{
    ran.row
}

pub fn report_of(ran: Ran) -> Report
    ensures { result ≡ report_of ran }
{
    Report {
        accepted: ran.accepted,
        index: ran.index,
        refusal: ran.refusal,
    }
}
