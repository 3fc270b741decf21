// The flags' decisions on a number of words in memory: PAF, HF and PAE by their tables, and by their rules where no row decides.
ghost use Rattle.std.specs.Prelude.{false, true, IfNone, IfSome, ◌+◌, ◌<◌, ◌≡◌};
ghost use Rattle.counts.specs.Part.{depth_of};
ghost use Rattle.views.specs.Flags.{full_at, hf_low, pae_low, paf_low};
ghost use Rattle.views.specs.Tables.{has_row, hf_by_table, pae_by_table, paf_by_table, row_at};

use super::tables::{Row, Table};
use counts::part::Part;

pub fn is_full_at(part: Part, words: u16) -> bool
    ensures { result ≡ full_at (depth_of part) words }
{
    words == counts::part::depth(part)
}

#[tactic(auto, using(crate::specs::TableLaws::paf_by_table_lem))]
pub fn is_paf_low(table: Table, part: Part, n: u16, m: u16, words: u16) -> bool
    ensures { result ≡ paf_low (depth_of part) m words }
{
    let beyond = super::tables::beyond_memory(table);
    paf_by_table(beyond, counts::part::depth(part), n, m, words)
}

#[tactic(auto, using(crate::specs::TableLaws::hf_by_table_lem))]
pub fn is_hf_low(table: Table, part: Part, n: u16, m: u16, words: u16) -> bool
    ensures { result ≡ hf_low (depth_of part) words }
{
    let beyond = super::tables::beyond_memory(table);
    hf_by_table(beyond, counts::part::depth(part), n, m, words)
}

#[tactic(auto, using(crate::specs::TableLaws::pae_by_table_lem))]
pub fn is_pae_low(table: Table, part: Part, n: u16, m: u16, words: u16) -> bool
    ensures { result ≡ pae_low n words }
{
    let beyond = super::tables::beyond_memory(table);
    pae_by_table(beyond, counts::part::depth(part), n, m, words)
}

#[tactic(auto, unfolding(crate::specs::Tables::paf_by_table))]
fn paf_by_table(beyond: u16, depth: u16, n: u16, m: u16, words: u16) -> bool
    requires { depth + beyond < 65536 }
    ensures { result ≡ paf_by_table beyond depth n m words }
{
    match row_at(beyond, depth, n, m, words) {
        Some(row) => !super::tables::paf_level(row),
        None => paf_by_rule(depth, m, words),
    }
}

#[tactic(auto, unfolding(crate::specs::Tables::hf_by_table))]
fn hf_by_table(beyond: u16, depth: u16, n: u16, m: u16, words: u16) -> bool
    requires { depth + beyond < 65536 }
    ensures { result ≡ hf_by_table beyond depth n m words }
{
    match row_at(beyond, depth, n, m, words) {
        Some(row) => !super::tables::hf_level(row),
        None => hf_by_rule(depth, words),
    }
}

#[tactic(auto, unfolding(crate::specs::Tables::pae_by_table))]
fn pae_by_table(beyond: u16, depth: u16, n: u16, m: u16, words: u16) -> bool
    requires { depth + beyond < 65536 }
    ensures { result ≡ pae_by_table beyond depth n m words }
{
    match row_at(beyond, depth, n, m, words) {
        Some(row) => !super::tables::pae_level(row),
        None => pae_by_rule(n, words),
    }
}

// The row that decides, where one does. In line at each of its three calls, where the compiler then makes one test of row and column.
#[inline(always)]
fn row_at(beyond: u16, depth: u16, n: u16, m: u16, words: u16) -> Option<Row>
    requires { depth + beyond < 65536 }
    ensures row { IfSome result (λ row. (has_row depth n m words ≡ true) × (row ≡ row_at beyond depth n m words)) }
    ensures none { IfNone result (has_row depth n m words ≡ false) }
{
    if super::tables::has_row(depth, n, m, words) {
        let limits = super::tables::limits_of(beyond, depth, n, m);
        let count = super::tables::stands_at(beyond, words);
        Some(super::tables::row_of(limits, count))
    } else {
        None
    }
}

fn paf_by_rule(depth: u16, m: u16, words: u16) -> bool
    ensures { result ≡ paf_low depth m words }
{
    super::tables::less(depth, m) <= words
}

fn hf_by_rule(depth: u16, words: u16) -> bool
    ensures { result ≡ hf_low depth words }
{
    depth / 2 < words
}

fn pae_by_rule(n: u16, words: u16) -> bool
    ensures { result ≡ pae_low n words }
{
    words <= n
}
