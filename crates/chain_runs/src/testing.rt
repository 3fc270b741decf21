// What is turned away before any record is looked at: 1, 13, 2 and 3.
ghost use Rattle.std.specs.Prelude.{◌*◌, ◌≤◌, ◌≡◌};
ghost use Rattle.chain_runs.specs.Test.{in_numbers, known_test, several, test_of};
ghost use Rattle.counts.specs.Part.{depth_of};

use counts::part::Part;
use refusal_kinds::Refusal;
use rows::row::Row;

// `words` are those of all memories, `roomy` says that the rooms which a run is lent are large enough.
pub fn test(number: u32, row: Row, words: usize, roomy: bool) -> Result<Part, Refusal>
    ensures { in_numbers result ≡ test_of number row words roomy }
{
    let looked_up = counts::part::look_up(number);
    let Some(part) = looked_up else {
        return Err(Refusal::UnknownPart);
    };
    if is_several(row.count) {
        test_known(part, row, words, roomy)
    } else {
        Err(Refusal::WrongPartCount)
    }
}

#[tactic(auto, unfolding(crate::specs::Test::known_test))]
fn test_known(part: Part, row: Row, words: usize, roomy: bool) -> Result<Part, Refusal>
    requires { row.count ≤ 8 }
    ensures { in_numbers result ≡ known_test part row words roomy }
{
    let sized = words == full_length(part, row.count);
    if roomy & sized {
        if rows::judging::pass_test(part, row) {
            Ok(part)
        } else {
            Err(Refusal::UnfitState)
        }
    } else {
        Err(Refusal::WrongLength)
    }
}

fn is_several(count: usize) -> bool
    ensures { result ≡ several count }
{
    (2 <= count) & (count <= 8)
}

fn full_length(part: Part, count: usize) -> usize
    requires { count ≤ 8 }
    ensures { result ≡ count * depth_of part }
{
    count * usize::from(counts::part::depth(part))
}
