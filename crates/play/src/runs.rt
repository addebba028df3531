// What the program `loops` writes: a schedule line, a script, and the listing of the state that the schedule leaves.
ghost use Rattle.std.specs.Prelude.{◌≡◌, ◌++◌, ◌≤◌, length, drop};
ghost use Rattle.atlite.specs.Program.{shown};
ghost use Rattle.atlite.specs.Loops.{loops};
ghost use Rattle.input_line.specs.Lines.{Opened};
ghost use Rattle.transcript.specs.Output.{listing_room, Written};
ghost use Rattle.play.specs.Starts.{of_text, of_words};
ghost use Rattle.play.specs.Schedules.{ran};

use crate::{show, start};
use atlite::Cause;

// The cause of a bad schedule line.
const BAD_LINE: Cause = Cause::Grammar;

// Makes the moves of the schedule, and lists what they leave.
fn play_state(state: &mut [u32], entries: &[u8], out: &mut [u8]) -> usize
    requires { listing_room ≤ length out.old }
    ensures { Written (shown (of_words (ran entries.now) state.old)) out.old result out.new }
{
    let _ = engine::run(state, entries);
    show::show_state(state, b"", out)
}

// Starts a script, and goes on with its state.
fn play_script(script: &[u8], entries: &[u8], out: &mut [u8]) -> usize
    requires { listing_room ≤ length out.old }
    ensures { Written (shown (of_text (ran entries.now) script.now)) out.old result out.new }
{
    let mut state = [0u32; start::STATE];
    match start::start(script, &mut state) {
        Ok(()) => play_state(&mut state, entries, out),
        Err(c) => transcript::refuse(c, out),
    }
}

// The schedule in a line of `n` bytes, then the script behind it.
fn play_parts(input: &[u8], n: usize, out: &mut [u8]) -> usize
    requires { Opened input.now n × (listing_room ≤ length out.old) }
    ensures { Written (loops input.now) out.old result out.new }
{
    let mut entries = [0u8; input_line::LONGEST];
    let read = input_line::read_schedule(&input[..n], &mut entries);
    let script = n + 1;
    match read {
        Some(k) => play_script(&input[script..], &entries[..k], out),
        None => transcript::refuse(BAD_LINE, out),
    }
}

// The first line, then what it says.
fn play_input(input: &[u8], out: &mut [u8]) -> usize
    requires { listing_room ≤ length out.old }
    ensures { Written (loops input.now) out.old result out.new }
{
    match input_line::first_line(input) {
        Some(n) => play_parts(input, n, out),
        None => transcript::refuse(BAD_LINE, out),
    }
}

// Writes what `loops` says of `input` in front of `out`, and returns how many bytes that are.
//
// The bytes are the definition's, for an input of any length: the listing of the state that the schedule leaves, or the line of the first
// cause that refuses. So it is ruled out that a script is looked at behind a bad schedule line, and that a listing is cut short.
pub fn play(input: &[u8], out: &mut [u8]) -> usize
    requires { 65536 ≤ length out.old }
    ensures { (result ≡ length (loops input.now)) × (result ≤ length out.new) × (out.new ≡ loops input.now ++ drop (length (loops input.now)) out.old) }
{
    play_input(input, out)
}
