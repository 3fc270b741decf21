// Enables before retransmit (paper 02, order 3): what is remembered of RT, REN and WEN.
ghost use Rattle.chip.specs.Enables.{enables_after, last_fall_clean};
ghost use Rattle.std.specs.Prelude.{◌≡◌};

use super::state::State;
use pins::record::Pins;

// The levels in the last sample taken, and whether REN and WEN were HIGH at RT's last fall and in the sample taken before it.
#[derive(Clone, Copy, Debug, PartialEq, Eq)]
pub struct Enables {
    pub rt: bool,
    pub ren: bool,
    pub wen: bool,
    pub clean: bool,
}

// The fall that an RT LOW in this sample belongs to: this sample's, or an earlier one's. RT is asked first and then its last level: the
// compiler makes less of it than of one test for both.
#[tactic(auto, unfolding(crate::specs::Enables::last_fall_clean))]
pub fn is_last_fall_clean(p: Pins, s: State) -> bool
    ensures { result ≡ last_fall_clean p s.enables }
{
    if p.rt {
        s.enables.clean
    } else if s.enables.rt {
        p.ren & p.wen & s.enables.ren & s.enables.wen
    } else {
        s.enables.clean
    }
}

#[tactic(auto, unfolding(crate::specs::Enables::enables_after))]
pub fn enables_after(p: Pins, s: State) -> Enables
    ensures { result ≡ enables_after p s.enables }
{
    let clean = is_last_fall_clean(p, s);
    Enables {
        rt: p.rt,
        ren: p.ren,
        wen: p.wen,
        clean,
    }
}
