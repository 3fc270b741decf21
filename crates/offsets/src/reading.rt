// Offsets: reading them at a rise of RCLK, and what Q shows.
ghost use Rattle.offsets.specs.Reading.{ended, read_next, reading_after, shown, shown_fits};
ghost use Rattle.std.specs.Prelude.{◌≡◌};

use super::registers::{Next, Offsets};
use counts::part::Part;
use pins::record::Pins;

// `shows` is the offset that Q shows, as it stood when it was read; there is none where Q shows the output register.
#[derive(Clone, Copy, Debug, PartialEq, Eq)]
pub struct Reading {
    pub next: Next,
    pub shows: Option<u16>,
}

pub fn end_showing(next: Next) -> Reading
    ensures { result ≡ ended next }
{
    Reading {
        next: next,
        shows: None,
    }
}

#[tactic(auto, unfolding(crate::specs::Reading::reading_after))]
pub fn read_offset(p: Pins, rises: bool, o: Offsets, reading: Reading) -> Reading
    ensures { result ≡ reading_after p rises o reading }
{
    let next = reading.next;
    if rises {
        if p.ld {
            end_showing(next)
        } else if p.ren {
            reading
        } else {
            show_next(next, o)
        }
    } else {
        reading
    }
}

pub fn show(shows: Option<u16>, output: u32) -> u32
    ensures { result ≡ shown shows output }
{
    shows.map_or(output, u32::from)
}

pub fn shown_fits(part: Part, shows: Option<u16>) -> bool
    ensures { result ≡ shown_fits part shows }
{
    shows.is_none_or(|offset| counts::part::is_offset(part, offset))
}

#[tactic(auto, unfolding(crate::specs::Reading::read_next))]
fn show_next(next: Next, o: Offsets) -> Reading
    ensures { result ≡ read_next next o }
{
    match next {
        Next::N => Reading {
            next: Next::M,
            shows: Some(o.n),
        },
        Next::M => Reading {
            next: Next::N,
            shows: Some(o.m),
        },
    }
}
