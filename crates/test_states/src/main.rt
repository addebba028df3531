// Lists stored states, and words in which one condition of a state each is broken.
//
// A record of the file `states` has 19 bytes: a letter and a space, five digits, a space and ten digits, the end of the line. `w` sets the
// word of the first number to the second, `l` lists the words, and `n` has a name for its digits, which is printed.
#![tactic(auto)]

ghost use Rattle.std.specs.Prelude.{◌+◌, ◌≤◌, ◌≡◌, length};

use input::{Unread, digits};
use std::io;

// The bytes of a record.
const RECORD: usize = 19;

// Sets the word that the record names, if there is one and the number fits.
fn set_word(entry: &[u8], words: &mut [u32])
    requires { 19 ≤ length entry.now }
{
    let i = digits::five(entry, 2);
    let v = digits::five(entry, 8) * 100000 + digits::five(entry, 13);
    if let (Some(word), Ok(v)) = (words.get_mut(i), u32::try_from(v)) {
        *word = v;
    }
}

// Lists the words, or says what refuses them.
fn show(rt: &impl Print, words: &[u32]) -> io::Result<()> {
    let mut text = [0u8; 65536];
    match state::list(words, &mut text) {
        Ok(n) => {
            let k = n.min(text.len());
            rt.write_all(&text[..k])
        }
        Err(c) => {
            let n = c.number();
            println!(rt; "(refused {n})")
        }
    }
}

// Does what one record says.
fn follow(rt: &impl Print, entry: &[u8], words: &mut [u32]) -> io::Result<()>
    requires { length entry.now ≡ 19 }
{
    match entry[0] {
        b'w' => {
            set_word(entry, words);
            Ok(())
        }
        b'l' => show(rt, words),
        _ => rt.write_all(&entry[2..]),
    }
}

// Goes through the records.
fn go_through(rt: &impl Print, records: &[u8], words: &mut [u32]) -> io::Result<()> {
    if records.len() < RECORD {
        return Ok(());
    }
    follow(rt, &records[..RECORD], words)?;
    go_through(rt, &records[RECORD..], words)
}

#[tactic(auto, using(input::specs::Within::counted))]
fn main(rt: HostRuntime) -> io::Result<()> {
    let mut data = [0u8; 65536];
    let mut words = [0u32; 16384];
    match input::read_file(&rt, b"states", &mut data) {
        Ok(n) => go_through(&rt, &data[..n], &mut words),
        Err(Unread) => rt.write_all(&input::UNREAD),
    }
}
