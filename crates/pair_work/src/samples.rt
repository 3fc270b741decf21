// Two parts side by side, on bytes: one sample of a trace at a time, the left record and then the right one.
ghost use Rattle.pair_work.specs.Samples.{Reads};

// What stands at an index of a trace: a whole sample, the bytes left over after the last one, or nothing more.
#[derive(Clone, Copy)]
pub enum Sample {
    Whole(u32, u32),
    Leftover,
    End,
}

#[tactic(auto, unfolding(crate::specs::Samples::sample_at))]
pub fn sample_at(trace: &[u8], index: usize) -> Sample
    ensures { Reads trace.now index result }
{
    if index < trace.len() / 8 {
        let left = pins::trace::word_at(trace, index * 8);
        let right = pins::trace::word_at(trace, index * 8 + 4);
        Sample::Whole(left, right)
    } else if trace.len() % 8 == 0 {
        Sample::End
    } else {
        Sample::Leftover
    }
}
