// What the programs `loops` and `replay` write besides a listing: the line of a refusal, that of a bad token, and the answers of calls.
//
// Nothing here stands on the engine: each function puts bytes into a text for an answer or a cause that it is given. A refusal is told by its
// cause, or by any byte (crate `refusals`).
#![tactic(auto)]

ghost use Rattle.std.specs.Prelude.{◌+◌, ◌≤◌, ◌≡◌, length};
ghost use Rattle.atlite.specs.Base.{refused};
ghost use Rattle.atlite.specs.Program.{shown};
ghost use Rattle.atlite.specs.Replay.{bad_token};
ghost use Rattle.transcript.specs.Output.{listing_room, Written, Fronted};

mod answers;

pub use answers::{put_answer, put_space};
use refusals::Refusal;
use showing::Writer;

// The bytes that a listing may have.
pub const LISTING: usize = 65536;

// Writes the line of a refusal.
pub fn refuse<C: Refusal>(cause: C, out: &mut [u8]) -> usize
    requires { listing_room ≤ length out.old }
    ensures { Written (shown (refused (C.number cause))) out.old result out.new }
{
    let mut text = Writer::new(out);
    text.put_bytes(b"(refused ");
    text.put_number(u32::from(cause.number()));
    text.put_bytes(b")\n");
    text.len()
}

// Writes the line of a line of calls that has no meaning.
pub fn bad_token(out: &mut [u8]) -> usize
    requires { listing_room ≤ length out.old }
    ensures { Written bad_token out.old result out.new }
{
    let mut text = Writer::new(out);
    text.put_bytes(b"(bad token)\n");
    text.len()
}

// Puts `head` in front of the `n` bytes that stand behind it.
pub fn put_head(head: &[u8], n: usize, out: &mut [u8]) -> usize
    requires { (length head.now + listing_room ≤ length out.old) × (n ≤ listing_room) }
    ensures { Fronted head.now n out.old result out.new }
{
    let k = head.len();
    out[..k].copy_from_slice(head);
    k + n
}

#[cfg(test)]
mod tests;
