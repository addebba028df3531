// Reads a schedule line and a script from standard input, and writes the listing of the state that the schedule leaves, or the line of the
// cause that refuses them. Where standard input fails to be read it writes `(unread)` and no listing, since a part of a script can be a script
// as well.
//
// The longest input that is played has 8,193 bytes. One byte more is read and no further: what is written for the whole input is what is
// written for its first 8,194 bytes (`loops-take` of crate `play`).
#![tactic(auto)]

use input::Unread;
use std::io;

// Plays an input, and writes what comes of it.
fn answer(rt: &impl Print, bytes: &[u8]) -> io::Result<()> {
    let mut out = [0u8; 65536];
    let k = play::play(bytes, &mut out);
    rt.write_all(&out[..k])
}

#[tactic(auto, using(input::specs::Within::counted))]
fn main(rt: HostRuntime) -> io::Result<()> {
    let mut bytes = [0u8; play::INPUT];
    match input::read_all(&mut rt.stdin(), &mut bytes) {
        Ok(n) => answer(&rt, &bytes[..n]),
        Err(Unread) => rt.write_all(&input::UNREAD),
    }
}
