// What the programs `loops` and `replay` write for their input, as functions on slices.
//
// An input is a line and a script. The line is judged first, so that its refusal comes before any of the script. What follows is a chain of
// the engine's calls, each of which can refuse; a refusal is written as its number. The two programs differ in what the line says and in what
// is done with the state: a run, or calls one after another with an answer for each. Crate `input_line` reads the line, and crate `transcript` has
// what is written besides the listing; here is what calls the engine.
#![tactic(auto)]

mod answers;
mod calls;
mod runs;
mod show;
mod start;

pub use calls::{ROOM, replay};
pub use runs::play;

// The bytes of an input that decide.
pub const INPUT: usize = input_line::INPUT;
