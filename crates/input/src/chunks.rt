// A trace comes on standard input and is worked chunk by chunk, so that one of any length takes the same memory.
ghost use Rattle.io.specs.Counts.{IsPrefixLen};
ghost use Rattle.std.specs.Io.KnownBytes.{Consumes};
ghost use Rattle.std.specs.Prelude.{ltb, ◌||◌, not, take, ◌≡◌};

use std::io::Read;

// In records or samples: whole ones, so that none lies across two chunks.
pub const RECORDS: usize = 4096;

// How many bytes came, from the start of the chunk on; they are the next ones, where the reader's are known. A read that fails ends
// the input. The loop is written out, since `read_exact` does not say how many bytes came before the end.
pub fn read<R: Read>(input: &mut R, chunk: &mut [u8]) -> usize
    ensures in_bounds { IsPrefixLen result chunk.new }
    ensures bytes { Consumes (R.remaining input.old) (R.remaining input.new) (take result chunk.new) }
{
    let mut came: usize = 0;
    while came < chunk.len() {
        match input.read(&mut chunk[came..]) {
            Ok(0) => break,
            Ok(more) => came += more,
            Err(_) => break,
        }
    }
    came
}

// A chunk that is not full is the last; and there is no use in going on where nobody takes the lines.
pub fn is_last(came: usize, chunk: usize, printed: bool) -> bool
    ensures { result ≡ ltb came chunk || not printed }
{
    came < chunk || !printed
}
