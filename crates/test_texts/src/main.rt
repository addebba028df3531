// Reads every text of the file `texts`, prints each that is accepted, and counts those whose answer is the one stored with it.
//
// A record is the text's length in four digits, a space, the cause that refuses it or 0, the end of the line, and the text.
#![tactic(auto)]

ghost use Rattle.std.specs.Prelude.{◌≡◌, ◌+◌, ◌≤◌, length};

use input::{Unread, digits};
use std::io;

// The bytes of a record before its text.
const HEADER: usize = 7;

// What was gone through: records, and those that agree.
#[derive(Clone, Copy)]
struct Tally {
    all: u64,
    agreed: u64,
}

// The length of the text in the record that begins with `head`.
fn text_length(head: &[u8]) -> usize
    requires { 7 ≤ length head.now }
    ensures { result ≤ 9999 }
{
    digits::two(head, 0) * 100 + digits::two(head, 2)
}

// Whether the table prints as `text`.
fn prints(table: &[u32], text: &[u8]) -> bool {
    let mut out = [0u8; 4096];
    match script::print(table, &mut out) {
        Ok(n) => n == text.len() && out.starts_with(text),
        Err(_) => false,
    }
}

// Whether `text` is refused with `cause`, or is accepted and printed again where that is 0.
fn agrees(text: &[u8], cause: usize) -> bool {
    let mut table = [0u32; 1280];
    match script::read(text, &mut table) {
        Ok(()) => cause == 0 && prints(&table, text),
        Err(c) => usize::from(c.number()) == cause,
    }
}

// One record more, whose text is `text`.
fn counted(t: Tally, text: &[u8], cause: usize) -> Tally
    requires { (t.all ≤ 65536) × (t.agreed ≤ t.all) }
    ensures { (result.all ≡ t.all + 1) × (result.agreed ≤ result.all) }
{
    Tally {
        all: t.all + 1,
        agreed: t.agreed + u64::from(agrees(text, cause)),
    }
}

// Goes through the records. A record that is cut short ends them, and agrees with nothing.
fn go_through(records: &[u8], t: Tally) -> Tally
    requires { (t.all + length records.now ≤ 65536) × (t.agreed ≤ t.all) }
{
    if records.len() < HEADER {
        return t;
    }
    let end = HEADER + text_length(records);
    if records.len() < end {
        return Tally {
            all: t.all + 1,
            agreed: t.agreed,
        };
    }
    let u = counted(t, &records[HEADER..end], digits::digit(records[5]));
    go_through(&records[end..], u)
}

// Says how many of the records agree.
fn report(rt: &impl Print, records: &[u8]) -> io::Result<()>
    requires { length records.now ≤ 65536 }
{
    let t = go_through(records, Tally { all: 0, agreed: 0 });
    let Tally { all, agreed } = t;
    println!(rt; "{agreed} of {all} texts agree")
}

#[tactic(auto, using(input::specs::Within::counted))]
fn main(rt: HostRuntime) -> io::Result<()> {
    let mut data = [0u8; 65536];
    match input::read_file(&rt, b"texts", &mut data) {
        Ok(n) => report(&rt, &data[..n]),
        Err(Unread) => rt.write_all(&input::UNREAD),
    }
}
