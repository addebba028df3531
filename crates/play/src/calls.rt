// What the program `replay` writes: a line of calls, a script, the answer to each call, and the listing of the state that they leave.
ghost use Rattle.std.specs.Prelude.{◌≡◌, ◌++◌, ◌≤◌, length, drop};
ghost use Rattle.atlite.specs.Program.{shown};
ghost use Rattle.atlite.specs.Replay.{replay};
ghost use Rattle.input_line.specs.Limits.{longest};
ghost use Rattle.input_line.specs.Lines.{Opened};
ghost use Rattle.transcript.specs.Output.{Written};
ghost use Rattle.play.specs.Limits.{replay_room};
ghost use Rattle.play.specs.Starts.{Holds, of_text, of_words};
ghost use Rattle.play.specs.Replays.{replay_from};

use crate::{answers, show, start};

// The bytes of one answer: a letter, a number that is a byte, and the space or the end of the line behind them.
const ANSWER: usize = 5;

// The bytes that the line of the answers may have.
const ANSWERS: usize = input_line::LONGEST * ANSWER + 1;

// The bytes that `replay` may write.
pub const ROOM: usize = ANSWERS + transcript::LISTING;

// Makes the calls, and lists what they leave behind their answers.
fn replay_state(state: &mut [u32], entries: &[u8], out: &mut [u8]) -> usize
    requires { Holds state.old × (length entries.now ≤ longest) × (replay_room ≤ length out.old) }
    ensures { Written (shown (of_words (replay_from entries.now) state.old)) out.old result out.new }
{
    let mut text = [0u8; ANSWERS];
    let k = answers::make_calls(state, entries, &mut text);
    show::show_state(state, &text[..k], out)
}

// Starts a script, and goes on with its state.
fn replay_script(script: &[u8], entries: &[u8], out: &mut [u8]) -> usize
    requires { (length entries.now ≤ longest) × (replay_room ≤ length out.old) }
    ensures { Written (shown (of_text (replay_from entries.now) script.now)) out.old result out.new }
{
    let mut state = [0u32; start::STATE];
    match start::start(script, &mut state) {
        Ok(()) => replay_state(&mut state, entries, out),
        Err(c) => transcript::refuse(c, out),
    }
}

// The calls in a line of `n` bytes, then the script behind it.
fn replay_parts(input: &[u8], n: usize, out: &mut [u8]) -> usize
    requires { Opened input.now n × (replay_room ≤ length out.old) }
    ensures { Written (replay input.now) out.old result out.new }
{
    let mut entries = [0u8; input_line::LONGEST];
    let read = input_line::read_calls(&input[..n], &mut entries);
    let script = n + 1;
    match read {
        Some(k) => replay_script(&input[script..], &entries[..k], out),
        None => transcript::bad_token(out),
    }
}

// The first line, then what it says.
fn replay_input(input: &[u8], out: &mut [u8]) -> usize
    requires { replay_room ≤ length out.old }
    ensures { Written (replay input.now) out.old result out.new }
{
    match input_line::first_line(input) {
        Some(n) => replay_parts(input, n, out),
        None => transcript::bad_token(out),
    }
}

// Writes what `replay` says of `input` in front of `out`, and returns how many bytes that are.
//
// The bytes are the definition's, for an input of any length: an answer for each call and the listing of the state that they leave, or the
// line of what refuses the input. So it is ruled out that a call is left out or its answer misplaced, that a script is looked at behind a bad
// line, and that answers are written where the listing is refused.
pub fn replay(input: &[u8], out: &mut [u8]) -> usize
    requires { replay_room ≤ length out.old }
    ensures { (result ≡ length (replay input.now)) × (result ≤ length out.new) × (out.new ≡ replay input.now ++ drop (length (replay input.now)) out.old) }
{
    replay_input(input, out)
}
