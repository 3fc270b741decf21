// Numbers as the sheet prints them.
use super::bounds;
use std::fmt;
use std::fmt::{Display, Formatter};
use views::tables::{Limits, Row};

// With the thousands apart; below a million.
#[derive(Clone, Copy)]
pub(crate) struct Thousands(pub(crate) u32);

impl Display for Thousands {
    fn fmt<W: fmt::Write>(&self, f: &mut Formatter<W>) -> fmt::Result {
        let number = self.0;
        if number < 1000 {
            write!(f, "{number}")
        } else {
            write!(f, "{},{:03}", number / 1000, number % 1000)
        }
    }
}

// The counts of a row, its first and its last.
#[derive(Clone, Copy)]
pub(crate) struct Counts {
    first: u32,
    last: u32,
}

impl Counts {
    pub(crate) fn of(limits: Limits, row: Row) -> Counts {
        Counts {
            first: bounds::first_of(limits, row),
            last: bounds::last_of(limits, row),
        }
    }
}

impl Display for Counts {
    fn fmt<W: fmt::Write>(&self, f: &mut Formatter<W>) -> fmt::Result {
        let first = Thousands(self.first);
        if self.first < self.last {
            let last = Thousands(self.last);
            write!(f, "{first} to {last}")
        } else {
            write!(f, "{first}")
        }
    }
}
