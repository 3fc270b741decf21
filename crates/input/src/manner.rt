// What the user asks for by arguments.
use std::env::{Env, FillError};
use std::fmt;
use std::io::Write;

// How a refused record is met: as the end, or as one line among the others.
#[derive(Clone, Copy, PartialEq, Eq)]
pub enum Manner {
    Strict,
    Lenient,
}

#[derive(Clone, Copy, Debug)]
pub struct UnknownArguments;

impl fmt::Display for UnknownArguments {
    fn fmt<W: fmt::Write>(&self, f: &mut fmt::Formatter<W>) -> fmt::Result {
        f.write_str("the only argument is lenient; the trace comes on standard input")
    }
}

pub fn asked(env: &impl Env) -> Result<Manner, UnknownArguments> {
    let mut word = [0u8; 7];
    match env.arg(1, &mut word) {
        Ok(length) if word[..length] == b"lenient"[..] && !is_given(env, 2) => Ok(Manner::Lenient),
        Err(FillError::NotPresent) => Ok(Manner::Strict),
        // One that is too long for the room is longer than the word that it is held against.
        _ => Err(UnknownArguments),
    }
}

fn is_given(env: &impl Env, i: usize) -> bool {
    let mut start = [0u8; 1];
    !matches!(env.arg(i, &mut start), Err(FillError::NotPresent))
}

// There is nothing to be done where nobody takes the complaint. What is wrong goes out in one write, with the end of its line.
pub fn complain<W: Write>(err: &mut W, program: &[u8]) {
    let mut room = [0u8; 80];
    let mut rest = &mut room[..];
    let _ = writeln!(rest, ": {UnknownArguments}");
    let left = rest.len();
    let end = room.len().saturating_sub(left);
    let _ = err.write_all(program);
    let _ = err.write_all(&room[..end]);
}
