// The chain record: the four bytes of a part's record, and three bytes more.
ghost use Rattle.std.specs.Prelude.{◌<◌, ◌≡◌};
ghost use Rattle.links.specs.Record.{links_of, marks_of, plain};

use pins::record::{Pins, Skew};

// The record's pins, the level of the transfer clock, and the three bytes in which the marks stand.
#[derive(Clone, Copy)]
pub struct Links {
    pub pins: Pins,
    pub clock: bool,
    pub more: u32,
}

pub fn read_links(record: u32, more: u32) -> Links
    ensures { result ≡ links_of «record» more }
{
    Links {
        pins: pins::record::decode(record),
        clock: (more >> 23) % 2 == 1,
        more: more,
    }
}

// Bits 22 to 16 are zero, and there are no bits above the three bytes.
pub fn is_plain(more: u32) -> bool
    ensures { result ≡ plain more }
{
    ((more >> 16) % 128 == 0) & (more < 16777216)
}

// The skew marks of a part, the first of which is part 0.
pub fn marks_of(more: u32, i: usize) -> Skew
    requires { i < 8 }
    ensures { result ≡ marks_of more i }
{
    Skew {
        write: (more >> (15 - 2 * i)) % 2 == 1,
        read: (more >> (14 - 2 * i)) % 2 == 1,
    }
}
