// The counts that a row of a flag table holds, from its first to its last.
ghost use Rattle.views.specs.Tables.{first_of, last_of};
ghost use Rattle.std.specs.Prelude.{◌≡◌};

use views::tables::{Limits, Row};

pub(crate) fn first_of(limits: Limits, row: Row) -> u32
    ensures { result ≡ first_of limits row }
{
    match row {
        Row::Empty => 0,
        Row::AlmostEmpty => 1,
        Row::ToHalf => u32::from(limits.few) + 1,
        Row::AboveHalf => u32::from(limits.half) + 1,
        Row::AlmostFull => u32::from(limits.many),
        Row::Full => u32::from(limits.full),
    }
}

pub(crate) fn last_of(limits: Limits, row: Row) -> u32
    ensures { result ≡ last_of limits row }
{
    match row {
        Row::Empty => 0,
        Row::AlmostEmpty => u32::from(limits.few),
        Row::ToHalf => u32::from(limits.half),
        Row::AboveHalf => u32::from(views::tables::less(limits.many, 1)),
        Row::AlmostFull => u32::from(views::tables::less(limits.full, 1)),
        Row::Full => u32::from(limits.full),
    }
}
