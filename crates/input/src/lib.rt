// Input read to its end, where a read that fails is not the end; `digits` reads numbers in the records of test programs.
#![tactic(auto)]

ghost use Rattle.std.specs.Prelude.{◌+◌, ◌≤◌, ◌≡◌, length, take, MatchOption};
ghost use Rattle.std.specs.Io.KnownBytes.{Keeps};
ghost use Rattle.input.specs.Known.{Gives, IsWhole};
ghost use Rattle.input.specs.Within.{Within};

use std::error::Error;
use std::io::Read;
use std::rt::Files;
use std::{fmt, fs};

pub mod digits;

// How many reads may fail before the input is given up. A read that a signal interrupted succeeds when it is made again, and others go on
// failing, so it is not asked which failure it was.
const FAILURES: u32 = 16;

// What an input is that could not be read to its end: no byte of it may be used.
#[derive(Clone, Copy, Debug, PartialEq, Eq)]
pub struct Unread;

impl fmt::Display for Unread {
    fn fmt<W: fmt::Write>(&self, f: &mut fmt::Formatter<W>) -> fmt::Result {
        write!(f, "unread")
    }
}

impl Error for Unread {}

// One read to the bytes of `buffer` from `at` on: so many bytes, none at the end of the input; or a failure, which is not the end.
fn get<R: Read>(reader: &mut R, buffer: &mut [u8], at: usize) -> Option<usize>
    requires { at ≤ length buffer.old }
    ensures front { take at buffer.new ≡ take at buffer.old }
    ensures given { MatchOption result (Keeps (R.remaining reader.old) (R.remaining reader.new)) (λ n. (at + n ≤ length buffer.old) × Gives (R.remaining reader.old) (R.remaining reader.new) buffer.new at n) }
{
    match reader.read(&mut buffer[at..]) {
        Ok(n) => Some(n),
        Err(_) => None,
    }
}

// Reads to the end of the input, or until `buffer` is full: how many bytes, with nothing behind them unless the buffer is full.
//
// The count is within the buffer. Of a reader whose bytes are known, as one over memory, they are what stands there, and none is left unless
// the buffer is full. Of a file or standard input no contract says which bytes it has.
#[tactic(auto, using(crate::specs::Within::laws))]
pub fn read_all<R: Read>(reader: &mut R, buffer: &mut [u8]) -> Result<usize, Unread>
    ensures count { Within result (length buffer.new) }
    ensures bytes { IsWhole (R.remaining reader.old) (R.remaining reader.new) result buffer.new }
{
    let mut at = 0;
    let mut left = FAILURES;
    // No turn is counted: one that fails leaves the place where it was, and the failures of all turns count together.
    while at < buffer.len() {
        match get(reader, buffer, at) {
            Some(0) => return Ok(at),
            Some(n) => at += n,
            None if left == 0 => return Err(Unread),
            None => left -= 1,
        }
    }
    Ok(at)
}

// Reads the file `name`, which is text, as `read_file` does.
#[tactic(auto, using(crate::specs::Within::laws))]
fn read_named<R: Files + Eprint>(rt: &R, name: &str, buffer: &mut [u8]) -> Result<usize, Unread>
    ensures { Within result (length buffer.new) }
{
    match fs::open(rt, name) {
        Ok(mut file) => read_all(&mut file, buffer),
        Err(e) => {
            let _ = eprintln!(rt; "{name}: {e}");
            Err(Unread)
        }
    }
}

// Reads the file `name` to its end, or until `buffer` is full. One that cannot be opened is unread, and a line on standard error says why.
// The library's paths are text, so bytes that are none name no file.
#[tactic(auto, using(crate::specs::Within::laws))]
pub fn read_file<R: Files + Eprint>(rt: &R, name: &[u8], buffer: &mut [u8]) -> Result<usize, Unread>
    ensures { Within result (length buffer.new) }
{
    match str::from_utf8(name) {
        Ok(text) => read_named(rt, text, buffer),
        Err(_) => {
            let _ = eprintln!(rt; "a file's name is no text");
            Err(Unread)
        }
    }
}

// The line that a program writes, and nothing else, where its input was not read.
pub const UNREAD: [u8; 9] = *b"(unread)\n";

#[cfg(test)]
mod tests;
