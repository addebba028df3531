// Calls of the engine as a caller makes them: two lists of calls that come to the same, and buffers of every length with words of every
// kind. Of each call its answer is printed, and whether what it must not write is as it was.
#![tactic(auto)]

mod buffers;
mod lists;
mod says;

use input::Unread;
use std::io;
use std::rt::Files;

// The calls with a script, and with one that is too large when it is expanded.
#[tactic(auto, using(input::specs::Within::counted))]
fn with_scripts<R: Files + Print + Eprint>(rt: &R, script: &[u8]) -> io::Result<()> {
    let mut large = [0u8; 4096];
    match input::read_file(rt, b"large", &mut large) {
        Ok(n) => {
            lists::both(rt, script)?;
            buffers::all(rt, script, &large[..n])
        }
        Err(Unread) => rt.write_all(&input::UNREAD),
    }
}

#[tactic(auto, using(input::specs::Within::counted))]
fn main(rt: HostRuntime) -> io::Result<()> {
    let mut script = [0u8; 4096];
    match input::read_file(&rt, b"script", &mut script) {
        Ok(n) => with_scripts(&rt, &script[..n]),
        Err(Unread) => rt.write_all(&input::UNREAD),
    }
}
