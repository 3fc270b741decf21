// Order 4, on bytes: one record of a chain's trace at a time.
ghost use Rattle.std.specs.Prelude.{◌+◌, ◌<◌, length, ◌≡◌};
ghost use Rattle.chain_work.specs.Records.{Reads, more_at};

// What stands at an index of a trace: a whole record, which is a part's record and three bytes more, the bytes left over after the last one, or
// nothing more.
#[derive(Clone, Copy)]
pub enum Record {
    Whole(u32, u32),
    Leftover,
    End,
}

#[tactic(auto, unfolding(crate::specs::Records::record_at))]
pub fn record_at(trace: &[u8], index: usize) -> Record
    ensures { Reads trace.now index result }
{
    if index < trace.len() / 7 {
        let head = pins::trace::word_at(trace, index * 7);
        let more = more_at(trace, index * 7);
        Record::Whole(head, more)
    } else if trace.len() % 7 == 0 {
        Record::End
    } else {
        Record::Leftover
    }
}

fn more_at(trace: &[u8], at: usize) -> u32
    requires { at + 6 < length trace.now }
    ensures { result ≡ more_at trace.now at }
{
    pins::trace::word_of(0, trace[at + 4], trace[at + 5], trace[at + 6])
}
