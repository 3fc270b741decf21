// Parts and paper authority: the memory that a program lends to a part, or to parts in a row.
ghost use Rattle.std.specs.Prelude.{◌*◌, ◌≤◌, leb, cond, ◌≡◌};
ghost use Rattle.counts.specs.Part.{by_part, depth_of, part_of};

// No part's memory is longer, in words.
pub const MOST: usize = 16384;

// Nor are those of eight parts together, and no row has more parts.
pub const MOST_OF_ROW: usize = 8 * MOST;

// How many words a part number asks for; none where it is no part's.
pub fn words(number: u32) -> usize
    ensures { (result ≡ by_part (part_of number) depth_of 0) × (result ≤ 16384) }
{
    let looked_up = counts::part::look_up(number);
    match looked_up {
        Some(part) => usize::from(counts::part::depth(part)),
        None => 0,
    }
}

// How many words so many parts in a row ask for; none where no row has so many.
pub fn words_of_row(number: u32, parts: usize) -> usize
    ensures { (result ≡ cond (leb parts 8) (parts * by_part (part_of number) depth_of 0) 0) × (result ≤ 131072) }
{
    if parts <= 8 { parts * words(number) } else { 0 }
}
