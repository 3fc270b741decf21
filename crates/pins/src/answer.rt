// Trace sample, its second paragraph: the answer.
ghost use Rattle.pins.specs.Answer.{given, packed};
ghost use Rattle.std.specs.Prelude.{◌<◌, ◌^◌, ◌≤◌, cond, ◌≡◌};

// The levels of the five flags, `ff` for FF/IR and `ef` for EF/OR; whether Q is driven, and the word that it then gives.
#[derive(Clone, Copy, Debug, PartialEq, Eq)]
pub struct Lines {
    pub ff: bool,
    pub ef: bool,
    pub hf: bool,
    pub pae: bool,
    pub paf: bool,
    pub driven: bool,
    pub q: u32,
}

#[tactic(auto, unfolding(crate::specs::Answer::packed))]
pub fn pack(lines: Lines) -> u32
    ensures { result ≡ packed lines }
{
    flag(lines.ff, 1 << 23)
        + flag(lines.ef, 1 << 22)
        + flag(lines.hf, 1 << 21)
        + flag(lines.pae, 1 << 20)
        + flag(lines.paf, 1 << 19)
        + flag(lines.driven, 1 << 18)
        + given_q(lines.driven, lines.q)
}

fn flag(level: bool, weight: u32) -> u32
    ensures means { result ≡ cond level weight 0 }
    ensures within { result ≤ weight }
{
    if level { weight } else { 0 }
}

fn given_q(driven: bool, q: u32) -> u32
    ensures means { result ≡ given driven q }
    ensures within { result < 2 ^ 18 }
{
    if driven {
        super::record::low_word(q)
    } else {
        0
    }
}
