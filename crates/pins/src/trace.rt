// Trace sample, on bytes: one record of a trace at a time.
ghost use Rattle.std.specs.Prelude.{◌+◌, ◌<◌, length, ◌≡◌};
ghost use Rattle.pins.specs.Trace.{Reads, joined, word_at};

// What stands at an index of a trace: a whole record with the mark that its D was still moving, the bytes left over after the
// last one, or nothing more.
#[derive(Clone, Copy)]
pub enum Record {
    Whole(u32, bool),
    Leftover,
    End,
}

#[tactic(auto, unfolding(crate::specs::Trace::record_at))]
pub fn record_at(trace: &[u8], index: usize) -> Record
    ensures { Reads trace.now index result }
{
    if index < trace.len() / 4 {
        let record = word_at(trace, index * 4);
        Record::Whole(record, super::record::is_unsettled(record))
    } else if trace.len() % 4 == 0 {
        Record::End
    } else {
        Record::Leftover
    }
}

// Four bytes from a place on.
#[tactic(auto, unfolding(crate::specs::Trace::word_at))]
pub fn word_at(trace: &[u8], at: usize) -> u32
    requires { at + 3 < length trace.now }
    ensures { result ≡ word_at trace.now at }
{
    word_of(trace[at], trace[at + 1], trace[at + 2], trace[at + 3])
}

pub fn word_of(first: u8, second: u8, third: u8, fourth: u8) -> u32
    ensures { result ≡ joined first second third fourth }
{
    u32::from_be_bytes([first, second, third, fourth])
}
