// A scene is a list of steps of the bench, and these are the steps that scenes are made of.
use pins::record::{Pins, Skew};
use std::fmt;

#[derive(Clone, Copy)]
pub(crate) struct Step {
    pub(crate) pins: Pins,
    pub(crate) made: Made,
    pub(crate) handed: Handed,
    pub(crate) shown: Option<Label>,
}

#[derive(Clone, Copy)]
pub(crate) enum Made {
    // No sample with both clocks LOW comes before it.
    Once,
    // So many times, a sample with both clocks LOW before each.
    FromLow(u32),
    // The same, and each time writes a word, which carries its number since the reset, from 1 on.
    Writing(u32),
}

// What a caller may hand in beside the record.
#[derive(Clone, Copy)]
pub(crate) enum Handed {
    // The part, the state as it was left and a memory of the part's depth.
    Own,
    // A number that is no part's.
    OtherPart,
    // A memory that is one word short.
    ShortMemory,
    // An output register other than the one that was left.
    Output(u32),
}

// The name that a figure's line gives its case.
#[derive(Clone, Copy)]
pub(crate) struct Label {
    name: &'static str,
    number: Option<u32>,
}

impl Label {
    pub(crate) fn numbered(name: &'static str, number: u32) -> Label {
        Label {
            name,
            number: Some(number),
        }
    }
}

impl fmt::Display for Label {
    fn fmt<W: fmt::Write>(&self, f: &mut fmt::Formatter<W>) -> fmt::Result {
        f.write_str(self.name)?;
        match self.number {
            Some(number) => write!(f, "-{number}"),
            None => Ok(()),
        }
    }
}

impl Step {
    fn new(pins: Pins, made: Made) -> Step {
        Step {
            pins,
            made,
            handed: Handed::Own,
            shown: None,
        }
    }

    // With no sample before it that has both clocks LOW.
    pub(crate) fn at_once(self) -> Step {
        Step {
            made: Made::Once,
            ..self
        }
    }

    // With the mark that D was still moving.
    pub(crate) fn unsettled(self) -> Step {
        Step {
            pins: Pins {
                unsettled: true,
                ..self.pins
            },
            ..self
        }
    }

    pub(crate) fn handing(self, handed: Handed) -> Step {
        Step { handed, ..self }
    }

    // A line is printed after it.
    pub(crate) fn shown(self, name: &'static str) -> Step {
        Step {
            shown: Some(Label { name, number: None }),
            ..self
        }
    }

    // The same, where several cases have one name.
    pub(crate) fn numbered(self, name: &'static str, number: u32) -> Step {
        Step {
            shown: Some(Label::numbered(name, number)),
            ..self
        }
    }
}

// Nothing is asked, both clocks are LOW, Q is driven, both skew times are met.
const IDLE: Pins = Pins {
    mrs: true,
    prs: true,
    wclk: false,
    rclk: false,
    wen: true,
    ren: true,
    ld: true,
    sen: true,
    rt: true,
    fwft: false,
    oe: false,
    skew: Skew {
        write: true,
        read: true,
    },
    unsettled: false,
    d: 0,
};

// LD LOW: offsets of 127 and parallel loading (Resets).
const RESET: Pins = Pins {
    mrs: false,
    ld: false,
    ..IDLE
};

const WRITE: Pins = Pins {
    wclk: true,
    wen: false,
    ..IDLE
};

const READ: Pins = Pins {
    rclk: true,
    ren: false,
    ..IDLE
};

const RETRANSMIT: Pins = Pins {
    rclk: true,
    rt: false,
    ..IDLE
};

pub(crate) fn idle(times: u32) -> Step {
    Step::new(IDLE, Made::FromLow(times))
}

pub(crate) fn reset() -> Step {
    Step::new(RESET, Made::FromLow(1))
}

// LD HIGH: offsets of 1,023 and serial loading.
pub(crate) fn reset_serial() -> Step {
    Step::new(Pins { mrs: false, ..IDLE }, Made::FromLow(1))
}

pub(crate) fn run_wclk(times: u32) -> Step {
    Step::new(Pins { wclk: true, ..IDLE }, Made::FromLow(times))
}

pub(crate) fn run_rclk(times: u32) -> Step {
    Step::new(Pins { rclk: true, ..IDLE }, Made::FromLow(times))
}

// Until neither side's view changes any more: the third RCLK rise delivers a word in FWFT, and the write side sees that
// with its second rise after it.
pub(crate) fn settle() -> Step {
    let both = Pins {
        wclk: true,
        rclk: true,
        ..IDLE
    };
    Step::new(both, Made::FromLow(5))
}

// A word of the caller's own.
pub(crate) fn put(word: u32) -> Step {
    Step::new(Pins { d: word, ..WRITE }, Made::FromLow(1))
}

pub(crate) fn write(times: u32) -> Step {
    Step::new(WRITE, Made::Writing(times))
}

pub(crate) fn read(times: u32) -> Step {
    Step::new(READ, Made::FromLow(times))
}

// A word written and a word read, so that the fill is the same after it.
pub(crate) fn turn(times: u32) -> Step {
    let both = Pins {
        rclk: true,
        ren: false,
        ..WRITE
    };
    Step::new(both, Made::Writing(times))
}

pub(crate) fn retransmit() -> Step {
    Step::new(RETRANSMIT, Made::FromLow(1))
}

// One sample with both enables and RT HIGH, as it must come before RT falls (paper 02, order 3).
pub(crate) fn enables_high() -> Step {
    Step::new(IDLE, Made::Once)
}

pub(crate) fn rt_low() -> Step {
    Step::new(Pins { rt: false, ..IDLE }, Made::Once)
}

pub(crate) fn rt_and_ren_low() -> Step {
    let both = Pins {
        rt: false,
        ren: false,
        ..IDLE
    };
    Step::new(both, Made::Once)
}

pub(crate) fn partial_reset_rt_low() -> Step {
    let both = Pins {
        rt: false,
        prs: false,
        ..IDLE
    };
    Step::new(both, Made::Once)
}

pub(crate) fn reset_rt_low() -> Step {
    Step::new(Pins { rt: false, ..RESET }, Made::FromLow(1))
}

pub(crate) fn reset_rt_and_wen_low() -> Step {
    let all = Pins {
        rt: false,
        wen: false,
        ..RESET
    };
    Step::new(all, Made::FromLow(1))
}

pub(crate) fn write_rt_low(times: u32) -> Step {
    Step::new(Pins { rt: false, ..WRITE }, Made::Writing(times))
}

pub(crate) fn load(word: u32) -> Step {
    let loading = Pins {
        ld: false,
        d: word,
        ..WRITE
    };
    Step::new(loading, Made::FromLow(1))
}

// Serial bits of 0, and of 1.
pub(crate) fn zeros(times: u32) -> Step {
    Step::new(serial(false), Made::FromLow(times))
}

pub(crate) fn ones(times: u32) -> Step {
    Step::new(serial(true), Made::FromLow(times))
}

fn serial(bit: bool) -> Pins {
    Pins {
        wclk: true,
        sen: false,
        ld: false,
        fwft: bit,
        ..IDLE
    }
}

pub(crate) fn read_offset() -> Step {
    Step::new(Pins { ld: false, ..READ }, Made::FromLow(1))
}

pub(crate) fn output_off() -> Step {
    Step::new(Pins { oe: true, ..IDLE }, Made::FromLow(1))
}

// WCLK going HIGH with WEN LOW in a Master Reset and in a Partial Reset: no write is asked there.
pub(crate) fn reset_and_write() -> Step {
    let both = Pins {
        wclk: true,
        wen: false,
        ..RESET
    };
    Step::new(both, Made::FromLow(1))
}

pub(crate) fn partial_reset_and_write() -> Step {
    Step::new(
        Pins {
            prs: false,
            ..WRITE
        },
        Made::FromLow(1),
    )
}

// Two that the part turns away: WEN beside the reading of an offset, and REN beside RT.
pub(crate) fn two_enables() -> Step {
    let both = Pins {
        ld: false,
        wen: false,
        ..READ
    };
    Step::new(both, Made::FromLow(1))
}

pub(crate) fn retransmit_and_read() -> Step {
    Step::new(
        Pins {
            ren: false,
            ..RETRANSMIT
        },
        Made::FromLow(1),
    )
}
