// What a part of a chain sees at its pins.
ghost use Rattle.links.specs.Wire.{ends_of, wired};
ghost use Rattle.std.specs.Prelude.{◌≡◌};

use super::record::Links;
use counts::choice::pick;
use pins::answer::Lines;
use pins::record::{Pins, Skew};

// `earlier` and `later` are what the neighbours show before the sample.
#[tactic(auto, unfolding(crate::specs::Wire::wired))]
pub fn wire(x: Links, marks: Skew, first: bool, last: bool, earlier: Lines, later: Lines) -> Pins
    ensures { result ≡ wired x marks first last earlier later }
{
    let p = x.pins;
    Pins {
        mrs: p.mrs,
        prs: p.prs,
        wclk: pick(first, p.wclk, x.clock),
        rclk: pick(last, p.rclk, x.clock),
        wen: pick(first, p.wen, earlier.ef),
        ren: pick(last, p.ren, later.ff),
        ld: p.ld,
        sen: p.sen,
        rt: p.rt,
        fwft: p.fwft,
        oe: pick(last, p.oe, false),
        skew: marks,
        unsettled: pick(first, p.unsettled, false),
        d: pick(first, p.d, earlier.q),
    }
}

// What the chain answers: IR and PAF of the first part, the rest of the last.
#[tactic(auto, unfolding(crate::specs::Wire::ends_of))]
pub fn join_ends(first: Lines, last: Lines) -> Lines
    ensures { result ≡ ends_of first last }
{
    Lines {
        ff: first.ff,
        ef: last.ef,
        hf: last.hf,
        pae: last.pae,
        paf: first.paf,
        driven: last.driven,
        q: last.q,
    }
}
