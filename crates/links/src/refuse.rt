// What is turned away of a chain's record as a whole: 4, 5 and 14; and the least of what the parts give.
ghost use Rattle.links.specs.Refuse.{fourteen, least, whole_refusal};
ghost use Rattle.std.specs.Prelude.{◌≡◌};

use super::record::Links;
use pins::record::Pins;
use refusal_kinds::{Refusal, Told};

// `started` says that every part has had a Master Reset, `parts` is the least refusal that a part gives.
#[tactic(auto, unfolding(crate::specs::Refuse::whole_refusal))]
pub fn refusal<T: Told>(x: Links, started: bool, parts: T) -> T
    ensures { T.told result ≡ whole_refusal x started (T.told parts) }
{
    let p = x.pins;
    if !super::record::is_plain(x.more) {
        T::of_refusal(Refusal::UnreadableRecord)
    } else if p.mrs & !started {
        T::of_refusal(Refusal::NoMasterReset)
    } else if is_fourteen(p) {
        T::of_refusal(Refusal::NotInChain)
    } else {
        parts
    }
}

#[tactic(auto, unfolding(crate::specs::Refuse::fourteen))]
fn is_fourteen(p: Pins) -> bool
    ensures { result ≡ fourteen p }
{
    (p.mrs & p.prs & (!p.rt | !p.ld)) | (!p.mrs & !p.fwft)
}

// Of two the one with the lower number.
#[tactic(auto, unfolding(crate::specs::Refuse::least))]
pub fn least<T: Told>(one: T, other: T) -> T
    ensures { T.told result ≡ least (T.told one) (T.told other) }
{
    if one.to_number() == 0 {
        other
    } else if other.to_number() == 0 {
        one
    } else if one.to_number() < other.to_number() {
        one
    } else {
        other
    }
}
