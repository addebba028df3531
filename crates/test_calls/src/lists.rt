// Two lists of calls on the state of one script, in which every actor makes as many moves, every inbox is sent to by the same actors in the
// same order, and the same actors create others in the same order. Their listings are to be equal.
ghost use Rattle.std.specs.Prelude.{◌≤◌, length};

use crate::says;
use atlite::ActorNo;
use std::io;

// A run, and what it answers.
fn run(rt: &impl Print, state: &mut [u32], entries: &[u8]) -> io::Result<()> {
    print!(rt; "run: ")?;
    says::ran(rt, engine::run(state, entries))?;
    println!(rt)
}

// A move, and what it answers.
fn step(rt: &impl Print, state: &mut [u32], actor: u8) -> io::Result<()> {
    print!(rt; "move of {actor}: ")?;
    says::moved(rt, engine::move_actor(state, ActorNo(actor)))?;
    println!(rt)
}

// The same run so many times.
fn rounds(rt: &impl Print, state: &mut [u32], entries: &[u8], n: usize) -> io::Result<()> {
    for _ in 0..n {
        run(rt, state, entries)?;
    }
    Ok(())
}

// Each actor as far as it comes, one after another; the fourth stops early.
fn in_turn(rt: &impl Print, state: &mut [u32]) -> io::Result<()> {
    run(rt, state, &[0u8; 60])?;
    run(rt, state, &[1u8; 20])?;
    run(rt, state, &[2u8; 20])?;
    run(rt, state, &[3u8, 3u8, 3u8])?;
    run(rt, state, &[0u8; 40])
}

// All of them by turns, with moves between the runs, and entries of actors that are not there or have nothing to do.
fn by_turns(rt: &impl Print, state: &mut [u32]) -> io::Result<()> {
    rounds(rt, state, &[0u8, 1u8, 2u8, 0u8], 10)?;
    step(rt, state, 1)?;
    step(rt, state, 7)?;
    run(rt, state, b"")?;
    run(rt, state, &[3u8, 9u8, 3u8, 255u8])
}

// The rest of that list.
fn by_turns_on(rt: &impl Print, state: &mut [u32]) -> io::Result<()> {
    rounds(rt, state, &[2u8, 1u8, 0u8, 2u8], 12)?;
    run(rt, state, &[0u8; 20])?;
    step(rt, state, 3)?;
    step(rt, state, 1)?;
    run(rt, state, &[0u8; 20])
}

// How many bytes `text` has of a listing; those that do not fit were not written.
fn listing(state: &[u32], text: &mut [u8]) -> usize
    ensures { result ≤ length text.new }
{
    let room = text.len();
    match engine::list(state, text) {
        Ok(n) if n <= room => n,
        _ => 0,
    }
}

// Whether two listings are the same; what is said of the words goes on the same line.
fn same(rt: &impl Print, a: &[u8], b: &[u8]) -> io::Result<()> {
    if *a == *b {
        return print!(rt; "the listings are equal");
    }
    print!(rt; "the listings differ")
}

// Loads the script twice and makes one list of calls on each.
pub(crate) fn both(rt: &impl Print, text: &[u8]) -> io::Result<()> {
    let mut table = [0u32; 1280];
    let mut one = [0u32; 16384];
    let mut two = [0u32; 16384];
    let _ = engine::read(text, &mut table);
    let _ = engine::load(&table, &mut one);
    let _ = engine::load(&table, &mut two);
    in_turn(rt, &mut one)?;
    let mut first = [0u8; 4096];
    let n = listing(&one, &mut first);
    rt.write_all(&first[..n])?;
    by_turns(rt, &mut two)?;
    by_turns_on(rt, &mut two)?;
    let mut second = [0u8; 4096];
    let m = listing(&two, &mut second);
    rt.write_all(&second[..m])?;
    same(rt, &first[..n], &second[..m])?;
    says::kept(rt, &one, &two, 0)
}
