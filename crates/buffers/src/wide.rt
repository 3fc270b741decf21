// Numbers in a wider type, unchanged.
ghost use Rattle.std.specs.Prelude.{◌<◌, ◌≡◌};

pub fn wide_byte(number: u8) -> u32
    ensures { (result ≡ number) × (result < 256) }
{
    number as u32
}

pub fn wide(number: u16) -> u32
    ensures { (result ≡ number) × (result < 65536) }
{
    number as u32
}

pub fn wide_word(number: u32) -> usize
    ensures { result ≡ number }
{
    number as usize
}
