// The state in lent bytes: how it is read, whether bytes spell one at all, and how it is written.
ghost use Rattle.std.specs.Prelude.{◌+◌, ◌<◌, length, ◌≡◌};
ghost use Rattle.numerals.specs.Bytes.{put_four, put_fours};
ghost use Rattle.spelling.specs.Spelling.{blank_elsewhere, counts_of, digits, enables_in, enables_of, enums_of, four_levels, level_at, levels_of, offsets_in, put_clocks, put_remembered, read_in, reading_in, rest_of, spelled_digits, spelling, spells, state_bytes, state_in, write_in};

use chip::enables::Enables;
use chip::state::State;
use counts::round::{ReadCount, WriteCount};
use numerals::bytes::{half_at, low_first_at, put_four, put_low_first, put_pair};
use numerals::digits;
use offsets::reading::Reading;
use offsets::registers::{Method, Next, Offsets};
use sides::read::ReadSide;
use sides::write::WriteSide;

// Nineteen digits and the number of serial bits, eleven numbers of 16 bits and two of 32; two bytes are left over.
pub const STATE_BYTES: usize = 52;

// In line, so that a caller reads the fields alone that it uses.
#[inline(always)]
#[tactic(auto, unfolding(crate::specs::Spelling::state_in))]
pub fn read_state(bytes: &[u8]) -> State
    requires { length bytes.now ≡ state_bytes }
    ensures { result ≡ state_in bytes.now }
{
    State {
        started: level_at(bytes, 0),
        write: read_write_side(bytes),
        read: read_read_side(bytes),
        offsets: read_offsets(bytes),
        reading: read_reading(bytes),
        enables: read_enables(bytes),
    }
}

#[tactic(auto, unfolding(crate::specs::Spelling::write_in))]
fn read_write_side(bytes: &[u8]) -> WriteSide
    requires { length bytes.now ≡ state_bytes }
    ensures { result ≡ write_in bytes.now }
{
    WriteSide {
        level: level_at(bytes, 1),
        count: WriteCount(half_at(bytes, 16)),
        wrapped: level_at(bytes, 3),
        first: ReadCount(half_at(bytes, 18)),
        second: ReadCount(half_at(bytes, 20)),
        latest: digits::rise(level_at(bytes, 4), half_at(bytes, 22)),
        view: digits::view(bytes[12]),
        paf: level_at(bytes, 6),
    }
}

#[tactic(auto, unfolding(crate::specs::Spelling::read_in))]
fn read_read_side(bytes: &[u8]) -> ReadSide
    requires { length bytes.now ≡ state_bytes }
    ensures { result ≡ read_in bytes.now }
{
    ReadSide {
        level: level_at(bytes, 2),
        count: ReadCount(half_at(bytes, 24)),
        first: WriteCount(half_at(bytes, 26)),
        second: WriteCount(half_at(bytes, 28)),
        latest: digits::rise(level_at(bytes, 5), half_at(bytes, 30)),
        setup: digits::setup(bytes[13]),
        pae: level_at(bytes, 7),
        mode: digits::mode(bytes[14]),
        output: low_first_at(bytes, 44),
    }
}

#[tactic(auto, unfolding(crate::specs::Spelling::offsets_in))]
fn read_offsets(bytes: &[u8]) -> Offsets
    requires { length bytes.now ≡ state_bytes }
    ensures { result ≡ offsets_in bytes.now }
{
    Offsets {
        n: half_at(bytes, 32),
        m: half_at(bytes, 34),
        method: digits::method(level_at(bytes, 8)),
        next: digits::next(level_at(bytes, 9)),
        serial: low_first_at(bytes, 36),
        count: bytes[15],
    }
}

#[tactic(auto, unfolding(crate::specs::Spelling::reading_in))]
fn read_reading(bytes: &[u8]) -> Reading
    requires { length bytes.now ≡ state_bytes }
    ensures { result ≡ reading_in bytes.now }
{
    Reading {
        next: digits::next(level_at(bytes, 10)),
        shows: level_at(bytes, 11).then_some(half_at(bytes, 40)),
    }
}

#[tactic(auto, unfolding(crate::specs::Spelling::enables_in))]
fn read_enables(bytes: &[u8]) -> Enables
    requires { length bytes.now ≡ state_bytes }
    ensures { result ≡ enables_in bytes.now }
{
    Enables {
        rt: level_at(bytes, 48),
        ren: level_at(bytes, 49),
        wen: level_at(bytes, 50),
        clean: level_at(bytes, 51),
    }
}

#[tactic(auto, unfolding(crate::specs::Spelling::level_at))]
fn level_at(bytes: &[u8], at: usize) -> bool
    requires { at < length bytes.now }
    ensures { result ≡ level_at bytes.now at }
{
    digits::level(bytes[at])
}

#[tactic(auto, unfolding(crate::specs::Spelling::spells))]
pub fn spells_state(bytes: &[u8]) -> bool
    requires { length bytes.now ≡ state_bytes }
    ensures { result ≡ spells bytes.now }
{
    are_digits(bytes) & is_blank_elsewhere(bytes)
}

#[tactic(auto, unfolding(crate::specs::Spelling::spelled_digits))]
fn are_digits(bytes: &[u8]) -> bool
    requires { length bytes.now ≡ state_bytes }
    ensures { result ≡ spelled_digits bytes.now }
{
    are_levels(bytes, 0)
        & are_levels(bytes, 4)
        & are_levels(bytes, 8)
        & are_levels(bytes, 48)
        & (bytes[12] < 3)
        & (bytes[13] < 3)
        & (bytes[14] < 3)
}

// Four at once, as one word, which is quicker than a test of each byte.
fn are_levels(bytes: &[u8], at: usize) -> bool
    requires { at + 3 < length bytes.now }
    ensures { result ≡ four_levels bytes.now at }
{
    let four = low_first_at(bytes, at);
    (four % 256 < 2)
        & (four / 256 % 256 < 2)
        & (four / 65536 % 256 < 2)
        & (four / 16777216 % 256 < 2)
}

#[tactic(auto, unfolding(crate::specs::Spelling::blank_elsewhere))]
fn is_blank_elsewhere(bytes: &[u8]) -> bool
    requires { length bytes.now ≡ state_bytes }
    ensures { result ≡ blank_elsewhere bytes.now }
{
    (level_at(bytes, 4) | (half_at(bytes, 22) == 0))
        & (level_at(bytes, 5) | (half_at(bytes, 30) == 0))
        & (level_at(bytes, 11) | (half_at(bytes, 40) == 0))
        & (half_at(bytes, 42) == 0)
}

pub fn write_state(state: State, bytes: &mut [u8])
    requires { length bytes.old ≡ state_bytes }
    ensures { bytes.new ≡ spelling state }
{
    put_levels(state, bytes);
    put_enums(state, bytes);
    put_counts(state, bytes);
    put_rest(state, bytes);
    put_enables(state.enables, bytes);
}

fn put_levels(s: State, bytes: &mut [u8])
    requires { length bytes.old ≡ state_bytes }
    ensures { bytes.new ≡ put_fours 0 (levels_of s) bytes.old }
{
    put_four_levels(
        bytes,
        0,
        s.started,
        s.write.level,
        s.read.level,
        s.write.wrapped,
    );
    put_four_levels(
        bytes,
        4,
        s.write.latest.is_some(),
        s.read.latest.is_some(),
        s.write.paf,
        s.read.pae,
    );
    put_four_levels(
        bytes,
        8,
        s.offsets.method == Method::Serial,
        s.offsets.next == Next::M,
        s.reading.next == Next::M,
        s.reading.shows.is_some(),
    );
}

fn put_four_levels(
    bytes: &mut [u8],
    at: usize,
    first: bool,
    second: bool,
    third: bool,
    fourth: bool,
)
    requires { at + 3 < length bytes.old }
    ensures { bytes.new ≡ put_four bytes.old at (digits first second third fourth) }
{
    put_four(
        bytes,
        at,
        u8::from(first),
        u8::from(second),
        u8::from(third),
        u8::from(fourth),
    );
}

fn put_enums(s: State, bytes: &mut [u8])
    requires { length bytes.old ≡ state_bytes }
    ensures { bytes.new ≡ put_fours 12 (enums_of s) bytes.old }
{
    put_four(
        bytes,
        12,
        s.write.view as u8,
        s.read.setup as u8,
        digits::mode_digit(s.read.mode),
        s.offsets.count,
    );
}

fn put_counts(s: State, bytes: &mut [u8])
    requires { length bytes.old ≡ state_bytes }
    ensures { bytes.new ≡ put_fours 16 (counts_of s) bytes.old }
{
    put_pair(bytes, 16, s.write.count.0, s.write.first.0);
    put_pair(bytes, 20, s.write.second.0, digits::before(s.write.latest));
    put_pair(bytes, 24, s.read.count.0, s.read.first.0);
    put_pair(bytes, 28, s.read.second.0, digits::before(s.read.latest));
}

fn put_rest(s: State, bytes: &mut [u8])
    requires { length bytes.old ≡ state_bytes }
    ensures { bytes.new ≡ put_fours 32 (rest_of s) bytes.old }
{
    put_pair(bytes, 32, s.offsets.n, s.offsets.m);
    put_low_first(bytes, 36, s.offsets.serial);
    put_pair(bytes, 40, s.reading.shows.unwrap_or(0), 0);
    put_low_first(bytes, 44, s.read.output);
}

fn put_enables(enables: Enables, bytes: &mut [u8])
    requires { length bytes.old ≡ state_bytes }
    ensures { bytes.new ≡ put_fours 48 (enables_of enables) bytes.old }
{
    put_four_levels(
        bytes,
        48,
        enables.rt,
        enables.ren,
        enables.wen,
        enables.clean,
    );
}

// All that a sample outside reset changes in which no clock rises.
#[tactic(auto, unfolding(crate::specs::Spelling::put_remembered))]
pub fn put_remembered(wclk: bool, rclk: bool, enables: Enables, bytes: &mut [u8])
    requires { length bytes.old ≡ state_bytes }
    ensures { bytes.new ≡ put_remembered wclk rclk enables bytes.old }
{
    put_clocks(wclk, rclk, bytes);
    put_enables(enables, bytes);
}

#[tactic(auto, unfolding(crate::specs::Spelling::put_clocks))]
fn put_clocks(wclk: bool, rclk: bool, bytes: &mut [u8])
    requires { length bytes.old ≡ state_bytes }
    ensures { bytes.new ≡ put_clocks wclk rclk bytes.old }
{
    bytes[1] = u8::from(wclk);
    bytes[2] = u8::from(rclk);
}
