// The two sides, on the counts: two types, so that neither is taken for the other, and 16 bits that wrap.
ghost use Rattle.counts.specs.Part.{depth_of};
ghost use Rattle.counts.specs.Round.{ahead, behind, last_of_width, more, place_of, width};
ghost use Rattle.std.specs.Prelude.{cond, refl, ◌≡◌, ℕ};

use super::part::Part;

// Of words written to memory.
#[derive(Clone, Copy, Debug, PartialEq, Eq)]
pub struct WriteCount(pub u16);

// Of words delivered from memory.
#[derive(Clone, Copy, Debug, PartialEq, Eq)]
pub struct ReadCount(pub u16);

// What either count is, to those who ask no more than its number.
pub trait Count: Copy {
    ghost number: { Self → ℕ };

    ghost counting: { ℕ → Self };

    fn to_number(self) -> u16
        ensures { result ≡ number self };

    fn from_number(words: u16) -> Self
        ensures { result ≡ counting words };

    ghost again: { (count : Self) → counting (number count) ≡ count };

    ghost kept: { (n : ℕ) → number (counting n) ≡ n };
}

impl Count for WriteCount {
    ghost number = { λ count. count.0 };

    ghost counting = { λ n. record { 0 = n } };

    ghost again = { λ count. refl };

    ghost kept = { λ n. refl };

    fn to_number(self) -> u16 {
        self.0
    }

    fn from_number(words: u16) -> WriteCount {
        WriteCount(words)
    }
}

impl Count for ReadCount {
    ghost number = { λ count. count.0 };

    ghost counting = { λ n. record { 0 = n } };

    ghost again = { λ count. refl };

    ghost kept = { λ n. refl };

    fn to_number(self) -> u16 {
        self.0
    }

    fn from_number(words: u16) -> ReadCount {
        ReadCount(words)
    }
}

pub fn next<C: Count>(moves: bool, count: C) -> C
    ensures { result ≡ C.counting (cond moves (more width (C.number count)) (C.number count)) }
{
    C::from_number(next_number(moves, count.to_number()))
}

pub fn is_last_of_width(count: WriteCount) -> bool
    ensures { result ≡ last_of_width count }
{
    count.0 == u16::MAX
}

pub fn words_ahead(write: WriteCount, read: ReadCount) -> u16
    ensures { result ≡ ahead write read }
{
    write.0.wrapping_sub(read.0)
}

pub fn words_behind(write: WriteCount, earlier: WriteCount) -> u16
    ensures { result ≡ behind write earlier }
{
    write.0.wrapping_sub(earlier.0)
}

// Where in memory the word of a count lies.
pub fn place<C: Count>(part: Part, count: C) -> u16
    ensures { result ≡ place_of (depth_of part) (C.number count) }
{
    count.to_number() % super::part::depth(part)
}

fn next_number(moves: bool, number: u16) -> u16
    ensures { result ≡ cond moves (more width number) number }
{
    if moves {
        number.wrapping_add(1)
    } else {
        number
    }
}
