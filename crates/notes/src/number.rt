// What a run notes of a sample's number, 0 where it is taken: its mark, whether it counts, and whether the run stops there.
ghost use Rattle.std.specs.Prelude.{◌+◌, ◌<◌, ◌^◌, ◌≡◌};
ghost use Rattle.notes.specs.Fold.{accepted_after, marks_after, stops};

pub fn note_mark(lenient: bool, number: u8, index: usize, marks: &mut [u8])
    ensures { marks.new ≡ marks_after lenient number index marks.old }
{
    if lenient {
        if index < marks.len() {
            marks[index] = number;
        }
    }
}

pub fn count(number: u8, accepted: usize) -> usize
    requires { accepted + 1 < 2 ^ 64 }
    ensures { result ≡ accepted_after number accepted }
{
    if number == 0 { accepted + 1 } else { accepted }
}

pub fn is_stop(lenient: bool, number: u8) -> bool
    ensures { result ≡ stops lenient number }
{
    !lenient & (number != 0)
}
