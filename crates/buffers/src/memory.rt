// The memory as bytes, four a word: one word fetched and one stored, at most, for a sample.
ghost use Rattle.std.specs.Prelude.{◌*◌, ◌+◌, ◌<◌, length, ◌≡◌};
ghost use Rattle.buffers.specs.Memory.{Within, memory_bytes, stored_in, word_size};
ghost use Rattle.pins.specs.Trace.{word_at};

use chip::advance::Put;
use counts::part::Part;

pub fn memory_bytes(part: Part) -> u32
    ensures { result ≡ memory_bytes part }
{
    u32::from(counts::part::depth(part)) * 4
}

pub fn fetch(memory: &[u8], place: u16) -> u32
    requires { place * word_size + 3 < length memory.now }
    ensures { result ≡ word_at memory.now (place * word_size) }
{
    pins::trace::word_at(memory, byte_place(place))
}

pub fn put_away(store: Option<Put>, memory: &mut [u8])
    requires { Within store (length memory.old) }
    ensures { memory.new ≡ stored_in store memory.old }
{
    if let Some(put) = store {
        numerals::bytes::put_word(memory, byte_place(put.place), put.word);
    }
}

fn byte_place(place: u16) -> usize
    ensures { (result ≡ place * word_size) × (result < 262144) }
{
    usize::from(place) * 4
}
