// Offsets: what is kept of them between two samples, and what a Master Reset makes it.
ghost use Rattle.counts.specs.Part.{serial_bits};
ghost use Rattle.offsets.specs.Registers.{default_offset, defaults, fit, method_of, serial_fits};
ghost use Rattle.std.specs.Prelude.{◌^◌, ltb, ◌≡◌};

use counts::part::Part;

#[derive(Clone, Copy, Debug, PartialEq, Eq)]
pub enum Method {
    Parallel,
    Serial,
}

// Which register is next in a sequence.
#[derive(Clone, Copy, Debug, PartialEq, Eq)]
pub enum Next {
    N,
    M,
}

// `next` is the register that a parallel load goes to. `serial` holds the bits loaded so far, the first in the lowest
// place, and `count` how many they are. The widest field stands first: padding is copied with every sample.
#[derive(Clone, Copy, Debug, PartialEq, Eq)]
pub struct Offsets {
    pub serial: u32,
    pub n: u16,
    pub m: u16,
    pub method: Method,
    pub next: Next,
    pub count: u8,
}

#[tactic(auto, unfolding(crate::specs::Registers::defaults))]
pub fn reset_offsets(ld: bool) -> Offsets
    ensures { result ≡ defaults ld }
{
    let offset = default_offset(ld);
    let method = method_of(ld);
    Offsets {
        n: offset,
        m: offset,
        method: method,
        next: Next::N,
        serial: 0,
        count: 0,
    }
}

#[tactic(auto, unfolding(crate::specs::Registers::fit))]
pub fn offsets_fit(part: Part, o: Offsets) -> bool
    ensures { result ≡ fit part o }
{
    counts::part::is_offset(part, o.n)
        & counts::part::is_offset(part, o.m)
        & serial_fits(part, o.serial, o.count)
}

fn default_offset(ld: bool) -> u16
    ensures { result ≡ default_offset ld }
{
    if ld { 1023 } else { 127 }
}

fn method_of(ld: bool) -> Method
    ensures { result ≡ method_of ld }
{
    if ld { Method::Serial } else { Method::Parallel }
}

fn serial_fits(part: Part, serial: u32, count: u8) -> bool
    ensures { result ≡ serial_fits (serial_bits part) serial count }
{
    (count < counts::part::serial_bits(part)) && fits_count(serial, count)
}

fn fits_count(serial: u32, count: u8) -> bool
    ensures { result ≡ ltb serial (2 ^ count) }
{
    if count < 32 {
        serial < 1u32 << count
    } else {
        true
    }
}
