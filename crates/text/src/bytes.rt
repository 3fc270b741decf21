// Bytes as they are.
ghost use Rattle.std.specs.Prelude.{◌+◌, ◌<◌, ◌≤◌, length, set, ◌≡◌};
ghost use Rattle.text.specs.Bytes.{put_text};

// What comes back is the place after it.
pub fn put_text(room: &mut [u8], at: usize, text: &[u8]) -> usize
    requires { at + length text.now ≤ length room.old }
    ensures { (result ≡ at + length text.now) × (room.new ≡ put_text room.old at text.now) }
{
    let end = at + text.len();
    room[at..end].copy_from_slice(text);
    end
}

// A function of its own, since its promise keeps the room's length: who stores several bytes need not show that each time.
pub fn put_byte(room: &mut [u8], at: usize, byte: u8)
    requires { at < length room.old }
    ensures { room.new ≡ set room.old at byte }
{
    room[at] = byte;
}
