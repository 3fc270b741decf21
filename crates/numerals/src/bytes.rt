// Numbers in lent bytes: a word of a record or of the memory has the byte of most weight first, a number of the state the byte
// of least weight.
ghost use Rattle.std.specs.Prelude.{◌+◌, ◌<◌, length, ◌≡◌};
ghost use Rattle.numerals.specs.Bytes.{half_at, low_first, low_first_at, pair, put_four, put_word};

#[tactic(auto, unfolding(crate::specs::Bytes::low_first_at))]
pub fn low_first_at(bytes: &[u8], at: usize) -> u32
    requires { at + 3 < length bytes.now }
    ensures { result ≡ low_first_at bytes.now at }
{
    u32::from_le_bytes([bytes[at], bytes[at + 1], bytes[at + 2], bytes[at + 3]])
}

#[tactic(auto, unfolding(crate::specs::Bytes::half_at))]
pub fn half_at(bytes: &[u8], at: usize) -> u16
    requires { at + 1 < length bytes.now }
    ensures { result ≡ half_at bytes.now at }
{
    u16::from_le_bytes([bytes[at], bytes[at + 1]])
}

#[tactic(auto, unfolding(crate::specs::Bytes::put_word))]
pub fn put_word(bytes: &mut [u8], at: usize, word: u32)
    requires { at + 3 < length bytes.old }
    ensures { bytes.new ≡ put_word bytes.old at word }
{
    let [first, second, third, fourth] = word.to_be_bytes();
    put_four(bytes, at, first, second, third, fourth);
}

pub fn put_low_first(bytes: &mut [u8], at: usize, word: u32)
    requires { at + 3 < length bytes.old }
    ensures { bytes.new ≡ put_four bytes.old at (low_first word) }
{
    let [first, second, third, fourth] = word.to_le_bytes();
    put_four(bytes, at, first, second, third, fourth);
}

pub fn put_pair(bytes: &mut [u8], at: usize, first: u16, second: u16)
    requires { at + 3 < length bytes.old }
    ensures { bytes.new ≡ put_four bytes.old at (pair first second) }
{
    let [one, two] = first.to_le_bytes();
    let [three, four] = second.to_le_bytes();
    put_four(bytes, at, one, two, three, four);
}

#[tactic(auto, unfolding(crate::specs::Bytes::put_four))]
pub fn put_four(bytes: &mut [u8], at: usize, first: u8, second: u8, third: u8, fourth: u8)
    requires { at + 3 < length bytes.old }
    ensures { bytes.new ≡ put_four bytes.old at (record { first = first; second = second; third = third; fourth = fourth }) }
{
    bytes[at] = first;
    bytes[at + 1] = second;
    bytes[at + 2] = third;
    bytes[at + 3] = fourth;
}
