// The words of the state in which a script begins.
ghost use Rattle.std.specs.Prelude.{◌≡◌, ◌++◌, ◌+◌, ◌≤◌, ◌<◌, length, get_or, set};
ghost use Rattle.std.proofs.Math.Seq.{slice};
ghost use Rattle.std.proofs.lemmas.List.Edits.{sets};
ghost use Rattle.layout.specs.Numbers.{expr_size, head_size, state_words, table_words};
ghost use Rattle.loading.specs.Start.{head_words, part_words};

use layout::{EXPR, HEAD, LENGTH, STATE};
use terms::splice::clear;
use words::put_words;

// Where the first actor's part counts the words of its expression, the zeros behind, and where the expression begins.
const FIRST_LENGTH: usize = HEAD + LENGTH;

const FIRST_ZEROS: usize = FIRST_LENGTH + 1;

const FIRST_EXPR: usize = HEAD + EXPR;

// Writes a state up to the length of its first actor's expression: one actor, the dictionary of the table `t`, whose words stand in both
// behind their number, and the counts of an actor that has made nothing.
#[tactic(auto, using(crate::specs::Start::write_laws))]
fn write_head(t: &[u32], state: &mut [u32])
    requires { (length t.now ≡ table_words) × (state_words ≤ length state.old) }
    ensures { state.new ≡ sets state.old 0 (head_words (get_or t.now 0 0) (slice 3 195 t.now)) }
{
    state[0] = 1;
    state[1] = t[0];
    put_words(state, 2, &t[3..195]);
    clear(state, 194, FIRST_LENGTH);
}

// Writes the first `n` words of `s` as the first actor's expression, behind their number, and zeros to the end of the state: its heap
// and inbox are empty, and there is no other actor.
#[tactic(auto, using(crate::specs::Start::write_laws))]
fn write_part(s: &[u32], n: usize, state: &mut [u32])
    requires { (n ≤ length s.now) × (n ≤ expr_size) × (state_words ≤ length state.old) }
    ensures { state.new ≡ sets state.old (head_size + 5) (part_words n (slice 0 n s.now)) }
{
    state[FIRST_LENGTH] = n as u32;
    clear(state, FIRST_ZEROS, FIRST_EXPR);
    put_words(state, FIRST_EXPR, &s[..n]);
    clear(state, FIRST_EXPR + n, STATE);
}

// Writes the state of one actor: the dictionary of the table `t`, and the first `n` words of `s` as its expression.
#[tactic(auto, using(crate::specs::Start::write_laws))]
pub fn write_state(t: &[u32], s: &[u32], n: usize, state: &mut [u32])
    requires { (length t.now ≡ table_words) × (n ≤ length s.now) × (n ≤ expr_size) × (state_words ≤ length state.old) }
    ensures { state.new ≡ sets state.old 0 (head_words (get_or t.now 0 0) (slice 3 195 t.now) ++ part_words n (slice 0 n s.now)) }
{
    write_head(t, state);
    write_part(s, n, state);
}
