// Calls with buffers that are short, empty or long, and with words that are no state and no table.
//
// Every buffer is longer than what is lent of it and has 7 in all words, or a point in all bytes, before. A state is loaded from the table
// that is given; where that is none the words stay, and are no state.
use crate::says;
use atlite::ActorNo;
use std::io;

// Prints what is called.
fn name(rt: &impl Print, text: &str) -> io::Result<()> {
    print!(rt; "{text}: ")
}

// The words that a call may have written: none where it was refused.
fn published(done: bool, n: usize) -> usize {
    if done { n } else { 0 }
}

// Reads into the first `n` words.
fn read_part(rt: &impl Print, text: &[u8], table: &mut [u32], n: usize) -> io::Result<bool> {
    if table.len() < n {
        return Ok(false);
    }
    says::done(rt, engine::read(text, &mut table[..n]))
}

// Prints into the first `n` bytes.
fn print_part(rt: &impl Print, table: &[u32], text: &mut [u8], n: usize) -> io::Result<usize> {
    if text.len() < n {
        return Ok(0);
    }
    says::bytes(rt, engine::print(table, &mut text[..n]))
}

// Loads into the first `n` words.
fn load_part(rt: &impl Print, table: &[u32], state: &mut [u32], n: usize) -> io::Result<bool> {
    if state.len() < n {
        return Ok(false);
    }
    says::done(rt, engine::load(table, &mut state[..n]))
}

// Moves an actor of the first `n` words.
fn move_part(rt: &impl Print, state: &mut [u32], n: usize, actor: u8) -> io::Result<bool> {
    if state.len() < n {
        return Ok(false);
    }
    says::moved(rt, engine::move_actor(&mut state[..n], ActorNo(actor)))
}

// Runs entries on the first `n` words.
fn run_part(rt: &impl Print, state: &mut [u32], n: usize, entries: &[u8]) -> io::Result<bool> {
    if state.len() < n {
        return Ok(false);
    }
    says::ran(rt, engine::run(&mut state[..n], entries))
}

// Lists into the first `n` bytes.
fn list_part(rt: &impl Print, state: &[u32], text: &mut [u8], n: usize) -> io::Result<usize> {
    if text.len() < n {
        return Ok(0);
    }
    says::bytes(rt, engine::list(state, &mut text[..n]))
}

// Lists the first `n` words.
fn list_words(
    rt: &impl Print,
    state: &[u32],
    n: usize,
    text: &mut [u8],
    room: usize,
) -> io::Result<usize> {
    if state.len() < n {
        return Ok(0);
    }
    list_part(rt, &state[..n], text, room)
}

// Reads a text into the first `n` words of a table.
fn read_into(rt: &impl Print, what: &str, text: &[u8], n: usize) -> io::Result<()> {
    let mut table = [7u32; 1300];
    name(rt, what)?;
    let done = read_part(rt, text, &mut table, n)?;
    says::kept(rt, &table, &[7u32; 1300], published(done, 1280))
}

// Prints a table into the first `n` bytes of a text.
fn print_into(rt: &impl Print, what: &str, table: &[u32], n: usize) -> io::Result<()> {
    let mut text = [b'.'; 2000];
    name(rt, what)?;
    let bytes = print_part(rt, table, &mut text, n)?;
    says::kept_bytes(rt, &text, bytes)
}

// Prints the first `k` words of a table.
fn print_cut(rt: &impl Print, what: &str, table: &[u32], k: usize) -> io::Result<()> {
    if table.len() < k {
        return Ok(());
    }
    print_into(rt, what, &table[..k], 2000)
}

// Loads a table into the first `n` words of a state.
fn load_into(rt: &impl Print, what: &str, table: &[u32], n: usize) -> io::Result<()> {
    let mut state = [7u32; 16400];
    name(rt, what)?;
    let done = load_part(rt, table, &mut state, n)?;
    says::kept(rt, &state, &[7u32; 16400], published(done, 16384))
}

// Loads the first `k` words of a table.
fn load_cut(rt: &impl Print, what: &str, table: &[u32], k: usize) -> io::Result<()> {
    if table.len() < k {
        return Ok(());
    }
    load_into(rt, what, &table[..k], 16400)
}

// Moves an actor of the first `n` words of the state that is loaded from the table.
fn move_in(rt: &impl Print, what: &str, table: &[u32], n: usize, actor: u8) -> io::Result<()> {
    let mut state = [7u32; 16400];
    let mut before = [7u32; 16400];
    let _ = engine::load(table, &mut state);
    let _ = engine::load(table, &mut before);
    name(rt, what)?;
    let done = move_part(rt, &mut state, n, actor)?;
    says::kept(rt, &state, &before, published(done, 16384))
}

// Runs entries on the first `n` words of the state that is loaded from the table.
fn run_in(rt: &impl Print, what: &str, table: &[u32], n: usize, entries: &[u8]) -> io::Result<()> {
    let mut state = [7u32; 16400];
    let mut before = [7u32; 16400];
    let _ = engine::load(table, &mut state);
    let _ = engine::load(table, &mut before);
    name(rt, what)?;
    let done = run_part(rt, &mut state, n, entries)?;
    says::kept(
        rt,
        &state,
        &before,
        published(done && entries.len() != 0, 16384),
    )
}

// Lists the first `n` words of the state that is loaded from the table, into the first `room` bytes of a text.
fn list_in(rt: &impl Print, what: &str, table: &[u32], n: usize, room: usize) -> io::Result<()> {
    let mut state = [7u32; 16400];
    let mut text = [b'.'; 2000];
    let _ = engine::load(table, &mut state);
    name(rt, what)?;
    let bytes = list_words(rt, &state, n, &mut text, room)?;
    says::kept_bytes(rt, &text, bytes)
}

// Reading and printing.
fn scripts(rt: &impl Print, text: &[u8], table: &[u32], none: &[u32]) -> io::Result<()> {
    read_into(rt, "read, no words", text, 0)?;
    read_into(rt, "read, short", text, 1279)?;
    read_into(rt, "read, no text", b"", 1300)?;
    read_into(rt, "read, no script", b"(plus 1 x)\n", 1300)?;
    read_into(rt, "read, long", text, 1300)?;
    print_cut(rt, "print, no words", table, 0)?;
    print_cut(rt, "print, short", table, 1279)?;
    print_into(rt, "print, no table", none, 2000)?;
    print_into(rt, "print, no room", table, 0)?;
    print_into(rt, "print, little room", table, 100)?;
    print_into(rt, "print, long", table, 2000)
}

// Loading and listing.
fn states(rt: &impl Print, table: &[u32], large: &[u32], none: &[u32]) -> io::Result<()> {
    load_into(rt, "load, no words", table, 0)?;
    load_into(rt, "load, short", table, 16383)?;
    load_cut(rt, "load, no table words", table, 0)?;
    load_cut(rt, "load, short table", table, 1279)?;
    load_into(rt, "load, no table", none, 16400)?;
    load_into(rt, "load, too large", large, 16400)?;
    load_into(rt, "load, long", table, 16400)?;
    list_in(rt, "list, no words", table, 0, 2000)?;
    list_in(rt, "list, short", table, 16383, 2000)?;
    list_in(rt, "list, no state", none, 16400, 2000)?;
    list_in(rt, "list, no room", table, 16400, 0)?;
    list_in(rt, "list, little room", table, 16400, 100)?;
    list_in(rt, "list, long", table, 16400, 2000)
}

// Moves and runs.
fn moves(rt: &impl Print, table: &[u32], none: &[u32]) -> io::Result<()> {
    move_in(rt, "move, no words", table, 0, 0)?;
    move_in(rt, "move, short", table, 16383, 0)?;
    move_in(rt, "move, no state", none, 16384, 0)?;
    move_in(rt, "move, no actor", table, 16400, 1)?;
    move_in(rt, "move, long", table, 16400, 0)?;
    run_in(rt, "run, no words", table, 0, &[0u8, 0u8])?;
    run_in(rt, "run, short", table, 16383, &[0u8, 0u8])?;
    run_in(rt, "run, no state", none, 16400, &[0u8, 0u8])?;
    run_in(rt, "run, no entries", table, 16400, b"")?;
    run_in(rt, "run, long", table, 16400, &[0u8, 1u8, 0u8, 255u8, 0u8])
}

// All of them, with a script and one that is too large when it is expanded.
pub(crate) fn all(rt: &impl Print, text: &[u8], large: &[u8]) -> io::Result<()> {
    let mut table = [7u32; 1300];
    let mut wide = [7u32; 1300];
    let none = [7u32; 1300];
    let _ = engine::read(text, &mut table);
    let _ = engine::read(large, &mut wide);
    scripts(rt, text, &table, &none)?;
    states(rt, &table, &wide, &none)?;
    moves(rt, &table, &none)
}
