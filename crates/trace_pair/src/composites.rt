// The composite flags of a chunk's samples, worked out from their records and answers once the run has written those down.
ghost use Rattle.lines.specs.Flags.{noted};
ghost use Rattle.std.specs.Prelude.{◌*◌, ◌+◌, ◌<◌, ◌≡◌, ◌≤◌, length};

use halves::state::Halves;
use input::chunks::RECORDS;
use joint::composite;
use joint::composite::Composite;
use lines::records::Shown;

pub(crate) fn show<'a>(
    before: Halves,
    trace: &[u8; RECORDS * 8],
    answers: &'a [u8; RECORDS * 6],
    marks: &[u8],
    flags: &'a mut [u8; RECORDS * 2],
) -> Shown<'a> {
    // No run goes past its chunk; one compare spares a law that says so.
    let count = marks.len().min(RECORDS);
    // Both halves are in one mode: a run that works any sample has tested it.
    let mut mode = before.left.read.mode;
    for (i, mark) in marks[..count].iter().enumerate() {
        // Of a sample that was refused there is nothing to note.
        if *mark == 0 {
            mode = composite::mode_after(mode, pins::trace::word_at(trace, i * 8));
            let left = answer_at(answers, i * 6);
            let right = answer_at(answers, i * 6 + 3);
            note(flags, i, composite::compose(mode, left, right));
        }
    }
    Shown::FlagsAndTwoAnswers { flags, answers }
}

// Of sample `i`, where its line looks for them.
fn note(flags: &mut [u8], i: usize, flag: Composite)
    requires { i * 2 + 2 ≤ length flags.old }
    ensures { flags.new ≡ noted flags.old i flag.ff flag.ef }
{
    lines::flags::note(flags, i, flag.ff, flag.ef);
}

fn answer_at(answers: &[u8], at: usize) -> u32
    requires { at + 2 < length answers.now }
{
    pins::trace::word_of(0, answers[at], answers[at + 1], answers[at + 2])
}
