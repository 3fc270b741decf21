// What the chunks of a trace that were worked so far come to.
ghost use Rattle.lines.specs.Tally.{counted, nothing};
ghost use Rattle.std.specs.Prelude.{◌≡◌};

// `records` counts those with a line, `accepted` those with an answer.
#[derive(Clone, Copy)]
pub struct Tally {
    pub records: u64,
    pub accepted: u64,
    pub refusal: u8,
    pub over: bool,
}

impl Tally {
    pub fn start() -> Tally
        ensures { result ≡ nothing }
    {
        Tally {
            records: 0,
            accepted: 0,
            refusal: 0,
            over: false,
        }
    }

    // A chunk more, in which a run ended at an index; it is the last one of the trace, or a refusal makes it so.
    #[tactic(auto, unfolding(crate::specs::Tally::counted))]
    pub fn count(self, index: usize, accepted: usize, refusal: u8, last: bool) -> Tally
        ensures { result ≡ counted self index accepted refusal last }
    {
        Tally {
            records: self.records.wrapping_add(index as u64),
            accepted: self.accepted.wrapping_add(accepted as u64),
            refusal,
            over: last || refusal != 0,
        }
    }
}
