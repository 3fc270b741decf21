// Source document 000, Tables 1 and 2: PAF, HF and PAE row by row.
ghost use Rattle.std.specs.Prelude.{◌+◌, ◌-◌, ◌<◌, ◌≤◌, ◌≡◌};
ghost use Rattle.views.specs.Tables.{beyond_memory, has_row, hf_level, limits_of, pae_level, paf_level, row_of, stands_at};

// Table 1 is that of Standard mode, Table 2 that of FWFT.
#[derive(Clone, Copy, Debug, PartialEq, Eq)]
pub enum Table {
    One,
    Two,
}

// In the sheet's order.
#[derive(Clone, Copy, Debug, PartialEq, Eq)]
pub enum Row {
    Empty,
    AlmostEmpty,
    ToHalf,
    AboveHalf,
    AlmostFull,
    Full,
}

// The last count of the rows AlmostEmpty and ToHalf, and the first of the rows AlmostFull and Full.
#[derive(Clone, Copy, Debug, PartialEq, Eq)]
pub struct Limits {
    pub few: u16,
    pub half: u16,
    pub many: u16,
    pub full: u16,
}

pub fn beyond_memory(table: Table) -> u16
    ensures { result ≡ beyond_memory table }
{
    match table {
        Table::One => 0,
        Table::Two => 1,
    }
}

pub fn limits_of(beyond: u16, depth: u16, n: u16, m: u16) -> Limits
    requires n_le_depth { n ≤ depth }
    requires beyond_bound { depth + beyond < 65536 }
    ensures { result ≡ limits_of beyond depth n m }
{
    Limits {
        few: n + beyond,
        half: depth / 2 + beyond,
        many: less(depth, m) + beyond,
        full: depth + beyond,
    }
}

pub fn has_row(depth: u16, n: u16, m: u16, words: u16) -> bool
    ensures { result ≡ has_row depth n m words }
{
    (n <= depth / 2) & (depth / 2 < less(depth, m)) & (words <= depth)
}

pub fn stands_at(beyond: u16, words: u16) -> u16
    requires { stands_at beyond words < 65536 }
    ensures { result ≡ stands_at beyond words }
{
    words + beyond
}

#[tactic(auto, unfolding(crate::specs::Tables::row_of))]
pub fn row_of(limits: Limits, count: u16) -> Row
    ensures { result ≡ row_of limits count }
{
    if count <= limits.few {
        if count == 0 {
            Row::Empty
        } else {
            Row::AlmostEmpty
        }
    } else if count <= limits.half {
        Row::ToHalf
    } else if count < limits.many {
        Row::AboveHalf
    } else if count < limits.full {
        Row::AlmostFull
    } else {
        Row::Full
    }
}

pub fn paf_level(row: Row) -> bool
    ensures { result ≡ paf_level row }
{
    match row {
        Row::Empty => true,
        Row::AlmostEmpty => true,
        Row::ToHalf => true,
        Row::AboveHalf => true,
        Row::AlmostFull => false,
        Row::Full => false,
    }
}

pub fn hf_level(row: Row) -> bool
    ensures { result ≡ hf_level row }
{
    match row {
        Row::Empty => true,
        Row::AlmostEmpty => true,
        Row::ToHalf => true,
        Row::AboveHalf => false,
        Row::AlmostFull => false,
        Row::Full => false,
    }
}

pub fn pae_level(row: Row) -> bool
    ensures { result ≡ pae_level row }
{
    match row {
        Row::Empty => false,
        Row::AlmostEmpty => false,
        Row::ToHalf => true,
        Row::AboveHalf => true,
        Row::AlmostFull => true,
        Row::Full => true,
    }
}

pub fn less(words: u16, fewer: u16) -> u16
    ensures { result ≡ words - fewer }
{
    words.saturating_sub(fewer)
}
