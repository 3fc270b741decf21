// Trace sample, its first paragraph: the levels of the pins, D and the mark that D was still moving, in a record.
ghost use Rattle.pins.specs.Record.{is_word, pins_of, unsettled_in, word};
ghost use Rattle.std.specs.Prelude.{◌≡◌};

// Whether the skew time was met, should that side's clock rise in this sample.
#[derive(Clone, Copy, Debug, PartialEq, Eq)]
pub struct Skew {
    pub write: bool,
    pub read: bool,
}

// HIGH is true. `fwft` is the pin FWFT/SI. `unsettled` is no pin: it marks a D that was still moving.
#[derive(Clone, Copy, Debug, PartialEq, Eq)]
pub struct Pins {
    pub mrs: bool,
    pub prs: bool,
    pub wclk: bool,
    pub rclk: bool,
    pub wen: bool,
    pub ren: bool,
    pub ld: bool,
    pub sen: bool,
    pub rt: bool,
    pub fwft: bool,
    pub oe: bool,
    pub skew: Skew,
    pub unsettled: bool,
    pub d: u32,
}

pub fn decode(record: u32) -> Pins
    ensures { result ≡ pins_of «record» }
{
    Pins {
        mrs: (record >> 31) % 2 == 1,
        prs: (record >> 30) % 2 == 1,
        wclk: (record >> 29) % 2 == 1,
        rclk: (record >> 28) % 2 == 1,
        wen: (record >> 27) % 2 == 1,
        ren: (record >> 26) % 2 == 1,
        ld: (record >> 25) % 2 == 1,
        sen: (record >> 24) % 2 == 1,
        rt: (record >> 23) % 2 == 1,
        fwft: (record >> 22) % 2 == 1,
        oe: (record >> 21) % 2 == 1,
        skew: Skew {
            write: (record >> 20) % 2 == 1,
            read: (record >> 19) % 2 == 1,
        },
        unsettled: is_unsettled(record),
        d: low_word(record),
    }
}

pub fn is_unsettled(record: u32) -> bool
    ensures { result ≡ unsettled_in «record» }
{
    (record >> 18) % 2 == 1
}

pub fn low_word(x: u32) -> u32
    ensures { result ≡ word x }
{
    x % 262144
}

pub fn is_word(x: u32) -> bool
    ensures { result ≡ is_word x }
{
    x < 262144
}
