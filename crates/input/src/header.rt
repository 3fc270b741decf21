// Bench figures, the trace programs: the part number that their input starts with, and the number of parts in a row after it.
ghost use Rattle.input.specs.Header.{number_of, parts_of};
ghost use Rattle.std.specs.Prelude.{◌≡◌};

use super::chunks;
use std::io::Read;

pub fn read_part_number<R: Read>(input: &mut R) -> u32 {
    let mut header = [0u8; 2];
    let came = chunks::read(input, &mut header);
    part_number(&header[..came])
}

#[tactic(auto, unfolding(crate::specs::Header::number_of))]
fn part_number(header: &[u8]) -> u32
    ensures { result ≡ number_of header.now }
{
    match header {
        [high, low, ..] => u32::from(u16::from_be_bytes([*high, *low])),
        _ => 0,
    }
}

pub fn read_count_of_parts<R: Read>(input: &mut R) -> usize {
    let mut header = [0u8; 1];
    let came = chunks::read(input, &mut header);
    count_of_parts(&header[..came])
}

#[tactic(auto, unfolding(crate::specs::Header::parts_of))]
fn count_of_parts(header: &[u8]) -> usize
    ensures { result ≡ parts_of header.now }
{
    match header {
        [parts, ..] => usize::from(*parts),
        [] => 0,
    }
}
