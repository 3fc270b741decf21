// Two flags for each record of a chunk, as the digits that its line shows.
ghost use Rattle.std.specs.Prelude.{◌≡◌, ◌+◌, ◌*◌, ◌≤◌, length};
ghost use Rattle.lines.specs.Flags.{digit_of, noted};

use text::bytes;

// The flags of the record at index `i` of the chunk.
#[tactic(auto, unfolding(crate::specs::Flags::noted))]
pub fn note(flags: &mut [u8], i: usize, first: bool, second: bool)
    requires { i * 2 + 2 ≤ length flags.old }
    ensures { flags.new ≡ noted flags.old i first second }
{
    bytes::put_byte(flags, i * 2, digit(first));
    bytes::put_byte(flags, i * 2 + 1, digit(second));
}

fn digit(flag: bool) -> u8
    ensures { result ≡ digit_of flag }
{
    if flag { b'1' } else { b'0' }
}
