// Parts and paper authority: the two parts, by their numbers, with their depth and the width of their offsets.
ghost use Rattle.counts.specs.Part.{above_bits, depth_of, low_bits, offset_bits, part_of, serial_bits, within};
ghost use Rattle.std.specs.Prelude.{◌≡◌};

#[derive(Clone, Copy, Debug, PartialEq, Eq)]
pub enum Part {
    Idt72V255LA,
    Idt72V265LA,
}

pub fn look_up(number: u32) -> Option<Part>
    ensures { result ≡ part_of number }
{
    match number {
        255 => Some(Part::Idt72V255LA),
        265 => Some(Part::Idt72V265LA),
        _ => None,
    }
}

pub fn depth(part: Part) -> u16
    ensures { result ≡ depth_of part }
{
    match part {
        Part::Idt72V255LA => 8192,
        Part::Idt72V265LA => 16384,
    }
}

pub fn serial_bits(part: Part) -> u8
    ensures { result ≡ serial_bits part }
{
    match part {
        Part::Idt72V255LA => 26,
        Part::Idt72V265LA => 28,
    }
}

pub fn low_offset(part: Part, x: u32) -> u16
    ensures { result ≡ low_bits (offset_bits part) x }
{
    match part {
        Part::Idt72V255LA => (x % 8192) as u16,
        Part::Idt72V265LA => (x % 16384) as u16,
    }
}

pub fn above_offset(part: Part, x: u32) -> u32
    ensures { result ≡ above_bits (offset_bits part) x }
{
    match part {
        Part::Idt72V255LA => x / 8192,
        Part::Idt72V265LA => x / 16384,
    }
}

pub fn is_offset(part: Part, x: u16) -> bool
    ensures { result ≡ within (offset_bits part) x }
{
    match part {
        Part::Idt72V255LA => x < 8192,
        Part::Idt72V265LA => x < 16384,
    }
}
