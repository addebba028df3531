// Plays every input of four files, and counts those for which the bytes stored with them are written. Of the program `loops`: the worked
// examples of document 01, inputs on points where it can be read twice, and inputs made at random. Of the program `replay`: inputs on
// what each request brought, and on the form of its line.
//
// A record is the length of the input in five digits, a space, the length of what is to be written in five digits and the end of the line;
// then the input, and what is to be written.
#![tactic(auto)]

ghost use Rattle.std.specs.Prelude.{◌≤◌, length};
ghost use Rattle.play.specs.Limits.{replay_room};

use input::{Unread, digits};
use std::io::Read;
use std::rt::Files;
use std::{fs, io};

// The file has no more records.
const RECORDS: u64 = 1000;

// Which program the inputs of a file are for.
#[derive(Clone, Copy)]
enum Program {
    Loops,
    Replay,
}

// Writes what the program writes for `input`.
fn play_input(program: Program, input: &[u8], out: &mut [u8]) -> usize
    requires { replay_room ≤ length out.old }
    ensures { result ≤ length out.new }
{
    match program {
        Program::Loops => play::play(input, out),
        Program::Replay => play::replay(input, out),
    }
}

// Whether the program writes `stored` for `input`.
fn agrees(program: Program, input: &[u8], stored: &[u8]) -> bool {
    let mut out = [0u8; play::ROOM];
    let k = play_input(program, input, &mut out);
    out[..k] == stored[..]
}

// Reads as many bytes as `buffer` has, and says whether they were there.
fn fill<R: Read>(file: &mut R, buffer: &mut [u8]) -> bool {
    let n = buffer.len();
    match input::read_all(file, buffer) {
        Ok(k) => k == n,
        Err(Unread) => false,
    }
}

// Whether what stands behind the head of a record agrees. A record that is cut short or too long agrees with nothing.
fn rest_agrees<R: Read>(program: Program, file: &mut R, head: &[u8; 12]) -> bool {
    let n = digits::five(head, 0);
    let m = digits::five(head, 6);
    let mut input = [0u8; play::INPUT];
    let mut stored = [0u8; 65536];
    n <= input.len()
        && fill(file, &mut input[..n])
        && m <= stored.len()
        && fill(file, &mut stored[..m])
        && agrees(program, &input[..n], &stored[..m])
}

// Whether the next record agrees. Where no byte of a head is there, the file has ended.
fn next<R: Read>(program: Program, file: &mut R) -> Result<Option<bool>, Unread> {
    let mut head = [0u8; 12];
    if input::read_all(file, &mut head)? == 0 {
        return Ok(None);
    }
    Ok(Some(rest_agrees(program, file, &head)))
}

// Says how many of all records agree.
fn tell(rt: &impl Print, agreed: u64, all: u64) -> io::Result<()> {
    println!(rt; "{agreed} of {all} inputs are played as stored")
}

// Goes through the records.
fn go_through<R: Read>(rt: &impl Print, program: Program, file: &mut R) -> io::Result<()> {
    let mut agreed = 0;
    for all in 0..RECORDS {
        match next(program, file) {
            Ok(Some(same)) => agreed += u64::from(same),
            Ok(None) => return tell(rt, agreed, all),
            Err(Unread) => return rt.write_all(&input::UNREAD),
        }
    }
    tell(rt, agreed, RECORDS)
}

// Plays the records of the file with this name.
fn play_file<R: Files + Print + Eprint>(rt: &R, program: Program, name: &str) -> io::Result<()> {
    match fs::open(rt, name) {
        Ok(mut file) => {
            print!(rt; "{name}: ")?;
            go_through(rt, program, &mut file)
        }
        Err(e) => eprintln!(rt; "{name}: {e}"),
    }
}

fn main(rt: HostRuntime) -> io::Result<()> {
    play_file(&rt, Program::Loops, "worked")?;
    play_file(&rt, Program::Loops, "readings")?;
    play_file(&rt, Program::Loops, "random")?;
    play_file(&rt, Program::Replay, "replays")
}
