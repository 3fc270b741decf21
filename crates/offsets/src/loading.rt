// Offsets: parallel and serial loading, at a rise of WCLK.
ghost use Rattle.std.specs.Prelude.{◌+◌, true, ◌≡◌};
ghost use Rattle.offsets.specs.Loading.{load_parallel, load_serial, loaded_by, offsets_after, pushed};
ghost use Rattle.offsets.specs.Registers.{fit};

use super::registers::{Method, Next, Offsets};
use counts::part::Part;
use pins::record::Pins;

#[tactic(auto, unfolding(crate::specs::Loading::offsets_after))]
pub fn load(part: Part, p: Pins, rises: bool, o: Offsets) -> Offsets
    requires { fit part o ≡ true }
    ensures { result ≡ offsets_after part p rises o }
{
    let method = o.method;
    if rises & !p.ld {
        load_by(method, part, p, o)
    } else {
        o
    }
}

#[tactic(auto, unfolding(crate::specs::Loading::loaded_by))]
fn load_by(method: Method, part: Part, p: Pins, o: Offsets) -> Offsets
    requires { fit part o ≡ true }
    ensures { result ≡ loaded_by method part p o }
{
    match method {
        Method::Parallel => if p.wen {
            o
        } else {
            load_parallel(part, p.d, o)
        },
        Method::Serial => if p.sen {
            o
        } else {
            load_serial(part, p.fwft, o)
        },
    }
}

#[tactic(auto, unfolding(crate::specs::Loading::load_parallel))]
fn load_parallel(part: Part, d: u32, o: Offsets) -> Offsets
    ensures { result ≡ load_parallel part d o }
{
    let offset = counts::part::low_offset(part, d);
    match o.next {
        Next::N => Offsets {
            n: offset,
            next: Next::M,
            ..o
        },
        Next::M => Offsets {
            m: offset,
            next: Next::N,
            ..o
        },
    }
}

#[tactic(auto, using(crate::specs::Fits::fits), unfolding(crate::specs::Loading::load_serial, crate::specs::Loading::with_bit))]
fn load_serial(part: Part, bit: bool, o: Offsets) -> Offsets
    requires { fit part o ≡ true }
    ensures { result ≡ load_serial part bit o }
{
    let serial = push(bit, part, o);
    let count = o.count + 1;
    let last = count == counts::part::serial_bits(part);
    if last {
        Offsets {
            n: counts::part::low_offset(part, serial),
            m: counts::part::low_offset(part, counts::part::above_offset(part, serial)),
            serial: 0,
            count: 0,
            ..o
        }
    } else {
        Offsets { serial, count, ..o }
    }
}

#[tactic(auto, using(crate::specs::Fits::fits, crate::specs::Fits::serial_small))]
fn push(bit: bool, part: Part, o: Offsets) -> u32
    requires { fit part o ≡ true }
    ensures { result ≡ pushed bit o }
{
    if bit {
        o.serial + (1u32 << o.count)
    } else {
        o.serial
    }
}
