// A place in the caller's trace: its bytes stay where they are, and only the index moves.
#![tactic(auto)]

ghost use Rattle.pins.specs.Trace.{Reads};
ghost use Rattle.reader.specs.Reader.{Finds, Moves, Opens};

use pins::trace::Record;

#[derive(Clone, Copy)]
pub struct Reader<'a> {
    pub trace: &'a [u8],
    pub index: usize,
}

pub fn open<'a>(trace: &'a [u8]) -> Reader<'a>
    ensures { Opens trace.entry result }
{
    Reader { trace, index: 0 }
}

pub fn at<'a>(reader: Reader<'a>, index: usize) -> Reader<'a>
    ensures { Moves reader.entry index result }
{
    Reader {
        trace: reader.trace,
        index,
    }
}

pub fn read<'a>(reader: Reader<'a>) -> Record
    ensures { Finds reader.entry result }
{
    pins::trace::record_at(reader.trace, reader.index)
}

// For callers that hold a plain slice and want no reader of their own.
pub fn record_of(trace: &[u8], index: usize) -> Record
    ensures { Reads trace.now index result }
{
    read(at(open(trace), index))
}
