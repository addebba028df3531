// What is printed of a call: its answer, and whether words and bytes are as they were.
use atlite::{Cause, Moved, Ran};
use std::io;

// The cause of a call that was refused.
fn refused(rt: &impl Print, cause: Cause) -> io::Result<()> {
    let n = cause.number();
    print!(rt; "refused {n}")
}

// What a move did, and whether it was made.
pub(crate) fn moved(rt: &impl Print, answer: Result<Moved, Cause>) -> io::Result<bool> {
    match answer {
        Ok(Moved::Inner) => print!(rt; "moved")?,
        Ok(Moved::Taken) => print!(rt; "taken")?,
        Ok(Moved::Sent(to)) => {
            let n = to.0;
            print!(rt; "sent to {n}")?
        }
        Ok(Moved::Created(new)) => {
            let n = new.0;
            print!(rt; "created {n}")?
        }
        Err(cause) => refused(rt, cause)?,
    }
    Ok(answer.is_ok())
}

// What a run came to, and whether it was made.
pub(crate) fn ran(rt: &impl Print, answer: Result<Ran, Cause>) -> io::Result<bool> {
    match answer {
        Ok(Ran { moves, refusals }) => print!(rt; "moves {moves}, refusals {refusals}")?,
        Err(cause) => refused(rt, cause)?,
    }
    Ok(answer.is_ok())
}

// What reading a text or loading a table came to, and whether it was done.
pub(crate) fn done(rt: &impl Print, answer: Result<(), Cause>) -> io::Result<bool> {
    match answer {
        Ok(()) => print!(rt; "done")?,
        Err(cause) => refused(rt, cause)?,
    }
    Ok(answer.is_ok())
}

// What printing or listing came to, and how many bytes were written.
pub(crate) fn bytes(rt: &impl Print, answer: Result<usize, Cause>) -> io::Result<usize> {
    match answer {
        Ok(n) => print!(rt; "bytes {n}")?,
        Err(cause) => refused(rt, cause)?,
    }
    Ok(answer.unwrap_or(0))
}

// Prints whether the words from `from` on are those before.
pub(crate) fn kept(rt: &impl Print, words: &[u32], before: &[u32], from: usize) -> io::Result<()> {
    for (i, (now, was)) in words.iter().zip(before).enumerate().skip(from) {
        if *now != *was {
            return println!(rt; "; word {i} is {now} and was {was}");
        }
    }
    println!(rt; "; the same from word {from}")
}

// Prints whether the bytes from `from` on are the points that were there.
pub(crate) fn kept_bytes(rt: &impl Print, text: &[u8], from: usize) -> io::Result<()> {
    for (i, b) in text.iter().enumerate().skip(from) {
        if *b != b'.' {
            return println!(rt; "; written at {i}");
        }
    }
    println!(rt; "; the same from byte {from}")
}
