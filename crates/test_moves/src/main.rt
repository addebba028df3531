// Makes stored moves with the engine, and counts those whose answer and every word afterwards are the ones stored with them.
//
// Answers and words come from another engine, in hosts/oracle, which also writes the files: one for each group of moves. A record has 19
// bytes: a letter and a space, five digits, a space and ten digits, the end of the line. `z` sets all words to 0, `w` sets the word of the
// first number to the second, and `r` repeats the word before the first number as often as the second says; `e` and `f` do so in the words
// that are expected alone. `m` has the actor in three digits, the answer in two and a name, and is the move.
#![tactic(auto)]

ghost use Rattle.std.specs.Prelude.{◌+◌, ◌≤◌, ◌≡◌, length, IfOk};

use atlite::{ActorNo, Cause, Moved};
use input::{Unread, digits};
use std::io;
use std::rt::Files;

// The bytes of a record.
const RECORD: usize = 19;

// The words of a state.
const STATE: usize = 16384;

// What was gone through: moves, and those that agree.
#[derive(Clone, Copy)]
struct Tally {
    all: u64,
    agreed: u64,
}

// Sets the word at `i`, if there is one and the number fits.
fn set_word(words: &mut [u32; STATE], i: usize, v: u64) {
    if let (Some(word), Ok(v)) = (words.get_mut(i), u32::try_from(v)) {
        *word = v;
    }
}

// The word at `i`, 0 where there is none.
fn word_at(words: &[u32; STATE], i: usize) -> u32 {
    words.get(i).copied().unwrap_or(0)
}

// Repeats the word before `i` in the `n` words from there on.
fn repeat(words: &mut [u32; STATE], i: usize, n: usize) {
    if i == 0 {
        return;
    }
    let v = word_at(words, i - 1);
    for word in words.iter_mut().skip(i).take(n) {
        *word = v;
    }
}

// Where the words of two states first differ.
fn difference(a: &[u32; STATE], b: &[u32; STATE]) -> Option<usize> {
    a.iter().zip(b).position(|(x, y)| *x != *y)
}

// A number for an answer with an actor in it; 99 where there is no such actor.
fn with_actor(tens: u64, actor: u8) -> u64
    requires { tens ≤ 50 }
{
    if 3 < actor {
        return 99;
    }
    tens + u64::from(actor)
}

// The number of an answer: a cause, 20 for an inner move, 30 for a message taken, 40 and 50 with the actor for one sent and one created.
fn answer_number(answer: Result<Moved, Cause>) -> u64 {
    match answer {
        Ok(Moved::Inner) => 20,
        Ok(Moved::Taken) => 30,
        Ok(Moved::Sent(to)) => with_actor(40, to.0),
        Ok(Moved::Created(new)) => with_actor(50, new.0),
        Err(cause) => u64::from(cause.number()),
    }
}

// The actor in three digits at 2; none has a number over 255.
fn actor(entry: &[u8]) -> u8
    requires { 19 ≤ length entry.now }
{
    let n = digits::two(entry, 2) * 10 + digits::digit(entry[4]);
    u8::try_from(n).unwrap_or(u8::MAX)
}

// Whether the move of the record has the answer and leaves the words that are expected. It is made on a copy. Of one that does not agree it
// prints what was answered, and the first word that is another than expected.
fn agrees(
    rt: &impl Print,
    entry: &[u8],
    start: &[u32; STATE],
    expected: &[u32; STATE],
) -> io::Result<bool>
    requires { length entry.now ≡ 19 }
{
    let mut words = *start;
    let answer = answer_number(engine::move_actor(&mut words, ActorNo(actor(entry))));
    let differs = difference(&words, expected);
    if answer == digits::two(entry, 6) as u64 && differs.is_none() {
        return Ok(true);
    }
    rt.write_all(&entry[9..18])?;
    print!(rt; "answer {answer}")?;
    if let Some(at) = differs {
        let word = word_at(&words, at);
        let stored = word_at(expected, at);
        print!(rt; ", word {at} is {word} and not {stored}")?;
    }
    rt.write_all(b"\n")?;
    Ok(false)
}

// One move more.
fn counted(t: Tally, agreed: bool) -> Tally
    requires { (t.all ≤ 65536) × (t.agreed ≤ t.all) }
    ensures { (result.all ≡ t.all + 1) × (result.agreed ≤ result.all) }
{
    Tally {
        all: t.all + 1,
        agreed: t.agreed + u64::from(agreed),
    }
}

// A record that is cut short, counted as a move that does not agree.
fn cut_short(rt: &impl Print, t: Tally) -> io::Result<Tally>
    requires { (t.all ≤ 65536) × (t.agreed ≤ t.all) }
    ensures { IfOk result (λ u. (u.all ≡ t.all + 1) × (u.agreed ≤ u.all)) }
{
    rt.write_all(b"a record is cut short\n")?;
    Ok(counted(t, false))
}

// Does what one record says to the words, where it is no move.
fn follow(entry: &[u8], start: &mut [u32; STATE], expected: &mut [u32; STATE])
    requires { length entry.now ≡ 19 }
{
    let i = digits::five(entry, 2);
    let low = digits::five(entry, 13);
    let v = (digits::five(entry, 8) * 100000 + low) as u64;
    match entry[0] {
        b'w' => {
            set_word(start, i, v);
            set_word(expected, i, v);
        }
        b'r' => {
            repeat(start, i, low);
            repeat(expected, i, low);
        }
        b'e' => set_word(expected, i, v),
        b'f' => repeat(expected, i, low),
        _ => {
            start.fill(0);
            expected.fill(0);
        }
    }
}

// Goes through the records. A record that is cut short ends them, and agrees with nothing. The words are copied by a call: an array that is assigned has
// a copy on the stack in each of these calls.
fn go_through(
    rt: &impl Print,
    records: &[u8],
    start: &mut [u32; STATE],
    expected: &mut [u32; STATE],
    t: Tally,
) -> io::Result<Tally>
    requires { (t.all + length records.now ≤ 65536) × (t.agreed ≤ t.all) }
    ensures { IfOk result (λ u. (u.all ≤ 65536) × (u.agreed ≤ u.all)) }
{
    if records.is_empty() {
        return Ok(t);
    }
    if records.len() < RECORD {
        return cut_short(rt, t);
    }
    if records[0] == b'm' {
        let u = counted(t, agrees(rt, &records[..RECORD], start, expected)?);
        expected.copy_from_slice(start);
        return go_through(rt, &records[RECORD..], start, expected, u);
    }
    follow(&records[..RECORD], start, expected);
    go_through(rt, &records[RECORD..], start, expected, t)
}

// Prints how many agree.
fn report(rt: &impl Print, name: &str, t: Tally) -> io::Result<()> {
    let Tally { all, agreed } = t;
    print!(rt; "{agreed} of {all}{name}")
}

// The moves of the records, added to those before.
fn make_moves(rt: &impl Print, name: &str, records: &[u8], before: Tally) -> io::Result<Tally>
    requires { (length records.now ≤ 65536) × (before.all ≤ 16777216) × (before.agreed ≤ before.all) }
    ensures { IfOk result (λ t. (t.all ≤ before.all + 65536) × (t.agreed ≤ t.all)) }
{
    let mut start = [0u32; STATE];
    let mut expected = [0u32; STATE];
    let t = go_through(
        rt,
        records,
        &mut start,
        &mut expected,
        Tally { all: 0, agreed: 0 },
    )?;
    report(rt, " ", t)?;
    println!(rt; "{name}")?;
    Ok(Tally {
        all: before.all + t.all,
        agreed: before.agreed + t.agreed,
    })
}

// The moves of the file `name`, added to those before. A file that is not read is one move that does not agree.
#[tactic(auto, using(input::specs::Within::counted))]
fn group<R: Files + Print + Eprint>(rt: &R, name: &str, before: Tally) -> io::Result<Tally>
    requires { (before.all ≤ 16777216) × (before.agreed ≤ before.all) }
    ensures { IfOk result (λ t. (t.all ≤ before.all + 65536) × (t.agreed ≤ t.all)) }
{
    let mut data = [0u8; 65536];
    match input::read_file(rt, name.as_bytes(), &mut data) {
        Ok(n) => make_moves(rt, name, &data[..n], before),
        Err(Unread) => {
            rt.write_all(&input::UNREAD)?;
            Ok(Tally {
                all: before.all + 1,
                agreed: before.agreed,
            })
        }
    }
}

// The groups of the rules that leave messages alone.
fn rules<R: Files + Print + Eprint>(rt: &R, t: Tally) -> io::Result<Tally>
    requires { (t.all ≤ 65536) × (t.agreed ≤ t.all) }
    ensures { IfOk result (λ u. (u.all ≤ 524288) × (u.agreed ≤ u.all)) }
{
    let a = group(rt, "numbers", t)?;
    let b = group(rt, "names", a)?;
    let c = group(rt, "heap", b)?;
    group(rt, "literals", c)
}

// The groups of the rules of messages.
fn messages<R: Files + Print + Eprint>(rt: &R, t: Tally) -> io::Result<Tally>
    requires { (t.all ≤ 524288) × (t.agreed ≤ t.all) }
    ensures { IfOk result (λ u. (u.all ≤ 1048576) × (u.agreed ≤ u.all)) }
{
    let a = group(rt, "sends", t)?;
    let b = group(rt, "isolates", a)?;
    let c = group(rt, "resolving", b)?;
    let d = group(rt, "takes", c)?;
    group(rt, "futures", d)
}

// The groups of refusals 8 to 15.
fn refusals<R: Files + Print + Eprint>(rt: &R, t: Tally) -> io::Result<Tally>
    requires { (t.all ≤ 1048576) × (t.agreed ≤ t.all) }
    ensures { IfOk result (λ u. (u.all ≤ 2097152) × (u.agreed ≤ u.all)) }
{
    let a = group(rt, "idle", t)?;
    let b = group(rt, "refused", a)?;
    group(rt, "resolved", b)
}

// The groups of limits, refusal 16.
fn limits<R: Files + Print + Eprint>(rt: &R, t: Tally) -> io::Result<Tally>
    requires { (t.all ≤ 2097152) × (t.agreed ≤ t.all) }
    ensures { IfOk result (λ u. (u.all ≤ 4194304) × (u.agreed ≤ u.all)) }
{
    let a = group(rt, "moves", t)?;
    let b = group(rt, "inboxes", a)?;
    let c = group(rt, "entities", b)?;
    let d = group(rt, "bodies", c)?;
    let e = group(rt, "nodes", d)?;
    group(rt, "actors", e)
}

fn main(rt: HostRuntime) -> io::Result<()> {
    let r = rules(&rt, Tally { all: 0, agreed: 0 })?;
    let m = messages(&rt, r)?;
    let f = refusals(&rt, m)?;
    let t = limits(&rt, f)?;
    report(&rt, " moves agree\n", t)
}
