// Reads a script from standard input and prints it again from its table, or says which cause refuses it, or that it was not read.
#![tactic(auto)]

use atlite::Cause;
use input::Unread;
use std::io;

// Prints a script again into `out`: how many bytes, or the cause that refuses it.
fn reprint(text: &[u8], out: &mut [u8]) -> Result<usize, Cause> {
    let mut table = [0u32; 1280];
    script::read(text, &mut table)?;
    script::print(&table, out)
}

// Writes the script again, or the line of the cause that refuses it.
fn answer(rt: &impl Print, text: &[u8]) -> io::Result<()> {
    let mut out = [0u8; 4096];
    match reprint(text, &mut out) {
        Ok(n) => {
            let k = n.min(out.len());
            rt.write_all(&out[..k])
        }
        Err(c) => {
            let n = c.number();
            println!(rt; "(refused {n})")
        }
    }
}

// One byte more than a script may have is read, so that a longer one is seen to be too long.
#[tactic(auto, using(input::specs::Within::counted))]
fn main(rt: HostRuntime) -> io::Result<()> {
    let mut text = [0u8; 4097];
    match input::read_all(&mut rt.stdin(), &mut text) {
        Ok(n) => answer(&rt, &text[..n]),
        Err(Unread) => rt.write_all(&input::UNREAD),
    }
}
