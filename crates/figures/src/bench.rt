// One part on the bench, clocked by the steps of a scene.
ghost use Rattle.std.specs.Prelude.{◌≤◌};

use super::steps::{Handed, Label, Made, Step};
use chip::state::State;
use counts::part::Part;
use pins::record::Pins;
use refusal_kinds::Refusal;
use std::{fmt, io};

#[derive(Clone, Copy, PartialEq, Eq)]
pub(crate) enum Mode {
    Standard,
    Fwft,
}

impl fmt::Display for Mode {
    fn fmt<W: fmt::Write>(&self, f: &mut fmt::Formatter<W>) -> fmt::Result {
        match self {
            Mode::Standard => f.write_str("standard"),
            Mode::Fwft => f.write_str("fwft"),
        }
    }
}

// `outcome` is that of the last sample; `word` is the number of the last word written since the reset.
#[derive(Drop)]
pub(crate) struct Bench<'a, P: Print> {
    pub(crate) out: &'a P,
    part: Part,
    pub(crate) mode: Mode,
    pub(crate) memory: &'a mut [u32],
    state: State,
    outcome: Option<Result<u32, Refusal>>,
    word: u16,
}

impl<'a, P: Print> Bench<'a, P> {
    pub(crate) fn new(out: &'a P, part: Part, mode: Mode, memory: &'a mut [u32]) -> Self {
        Bench {
            out,
            part,
            mode,
            memory,
            state: chip::reset::power_up(),
            outcome: None,
            word: 0,
        }
    }

    // Parts and paper authority: the number and the depth.
    pub(crate) fn number(&self) -> u32 {
        match self.part {
            Part::Idt72V255LA => 255,
            Part::Idt72V265LA => 265,
        }
    }

    pub(crate) fn depth(&self) -> u32
        ensures least { 8192 ≤ result }
        ensures most { result ≤ 16384 }
    {
        match self.part {
            Part::Idt72V255LA => 8192,
            Part::Idt72V265LA => 16384,
        }
    }

    // In FWFT the output register holds a word beside the memory (the two sides, at HF).
    pub(crate) fn beside(&self) -> u32
        ensures { result ≤ 1 }
    {
        match self.mode {
            Mode::Standard => 0,
            Mode::Fwft => 1,
        }
    }

    // The bits of both offsets together (Offsets).
    pub(crate) fn serial_bits(&self) -> u32
        ensures { 26 ≤ result }
    {
        match self.part {
            Part::Idt72V255LA => 26,
            Part::Idt72V265LA => 28,
        }
    }

    // A scene, from power-up.
    pub(crate) fn play(&mut self, scene: &[Step]) -> io::Result<()> {
        self.power_up();
        self.play_on(scene)
    }

    pub(crate) fn power_up(&mut self) {
        self.state = chip::reset::power_up();
        self.outcome = None;
        self.word = 0;
    }

    pub(crate) fn play_on(&mut self, scene: &[Step]) -> io::Result<()> {
        for &step in scene {
            self.make(step);
            if let (Some(label), Some(outcome)) = (step.shown, self.outcome) {
                self.show(step.handed, label, outcome)?;
            }
        }
        Ok(())
    }

    // In a Master Reset with the level that selects the mode.
    fn make(&mut self, step: Step) {
        let mut pins = step.pins;
        if !pins.mrs {
            pins.fwft = self.mode == Mode::Fwft;
            self.word = 0;
        }
        match step.made {
            Made::Once => self.sample(pins, step.handed),
            Made::FromLow(times) => self.clock(times, pins, step.handed),
            Made::Writing(times) => self.write(times, pins, step.handed),
        }
    }

    // The number on the data lines, of 16 bits, goes up by one each time: where no word is asked for, it makes no difference.
    fn clock(&mut self, times: u32, pins: Pins, handed: Handed) {
        for time in 0..times {
            let moved = pins.d & 0xFFFF0000 | pins.d.wrapping_add(time) % 65536;
            self.rise(Pins { d: moved, ..pins }, handed);
        }
    }

    fn write(&mut self, times: u32, pins: Pins, handed: Handed) {
        for _ in 0..times {
            self.word = self.word.wrapping_add(1);
            let word = u32::from(self.word);
            self.rise(Pins { d: word, ..pins }, handed);
        }
    }

    fn rise(&mut self, pins: Pins, handed: Handed) {
        let low = Pins {
            wclk: false,
            rclk: false,
            ..pins
        };
        self.sample(low, handed);
        self.sample(pins, handed);
    }

    fn sample(&mut self, pins: Pins, handed: Handed) {
        self.hand_in(record_of(pins), handed);
    }

    // A record as it stands, and its line.
    pub(crate) fn play_record(&mut self, record: u32, label: Label) -> io::Result<()> {
        self.hand_in(record, Handed::Own);
        match self.outcome {
            Some(outcome) => self.show(Handed::Own, label, outcome),
            None => Ok(()),
        }
    }

    fn hand_in(&mut self, record: u32, handed: Handed) {
        let number = handed.number_by(self.number());
        let state = handed.state_by(self.state);
        let words = handed.words_by(self.memory.len());
        let sampled = fifo::sample::sample(number, record, state, &mut self.memory[..words]);
        self.state = sampled.state;
        self.outcome = Some(sampled.outcome);
    }

    // A figure's line: part, mode and name of the case, a blank, and the outcome.
    fn show(&self, handed: Handed, label: Label, outcome: Result<u32, Refusal>) -> io::Result<()> {
        let number = handed.number_by(self.number());
        let mode = self.mode;
        print!(self.out; "{number}-{mode}-{label} ")?;
        match outcome {
            Ok(answer) => println!(self.out; "{answer:06X}"),
            Err(refusal) => {
                let refused = refusal.number();
                println!(self.out; "refused {refused}")
            }
        }
    }
}

impl Handed {
    fn number_by(self, own: u32) -> u32 {
        match self {
            Handed::OtherPart => 256,
            _ => own,
        }
    }

    fn state_by(self, left: State) -> State {
        let mut state = left;
        if let Handed::Output(output) = self {
            state.read.output = output;
        }
        state
    }

    fn words_by(self, words: usize) -> usize
        ensures { result ≤ words }
    {
        match self {
            Handed::ShortMemory => words.saturating_sub(1),
            _ => words,
        }
    }
}

// As Trace sample lays it out.
fn record_of(pins: Pins) -> u32 {
    let levels = [
        pins.mrs,
        pins.prs,
        pins.wclk,
        pins.rclk,
        pins.wen,
        pins.ren,
        pins.ld,
        pins.sen,
        pins.rt,
        pins.fwft,
        pins.oe,
        pins.skew.write,
        pins.skew.read,
        pins.unsettled,
    ];
    let high = levels
        .iter()
        .fold(0, |bits: u32, &level| bits << 1 | u32::from(level));
    high << 18 | pins.d
}
