// Answers in the room that is lent for them.
ghost use Rattle.std.specs.Prelude.{◌*◌, ◌+◌, ◌<◌, length, ◌≡◌};
ghost use Rattle.notes.specs.Fold.{roomy};
ghost use Rattle.pins.specs.Answer.{put_answer};

#[tactic(auto, unfolding(pins::specs::Answer::put_answer))]
pub fn put_answer(answers: &mut [u8], index: usize, answer: u32)
    requires { index * 3 + 2 < length answers.old }
    ensures { answers.new ≡ put_answer answers.old index answer }
{
    let at = index * 3;
    answers[at] = (answer / 65536 % 256) as u8;
    answers[at + 1] = (answer / 256 % 256) as u8;
    answers[at + 2] = (answer % 256) as u8;
}

// Whether the rooms lent hold so many bytes of answers and, in a lenient run, a mark for each whole sample.
pub fn is_roomy(lenient: bool, bytes: usize, whole: usize, answers: usize, marks: usize) -> bool
    ensures { result ≡ roomy lenient bytes whole answers marks }
{
    (bytes <= answers) & (!lenient | (whole <= marks))
}
