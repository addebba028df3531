// The test for a state, and the call that lists one.
//
// The test looks at what is cheap first: counts, zeros and the dictionary; then it gathers the kinds of all entities in one table, and
// judges each actor's part by that table alone.
#![tactic(auto)]

ghost use Rattle.std.specs.Prelude.{◌≡◌, true, ◌≤◌, length, drop};
ghost use Rattle.atlite.specs.Base.{is_done};
ghost use Rattle.atlite.specs.Answers.{list_answer};
ghost use Rattle.layout.specs.Numbers.{head_size, state_words};
ghost use Rattle.promises.specs.Meaning.{state_in, list_call, ListsCall};
ghost use Rattle.actor.specs.PartContract.{Decides};
ghost use Rattle.state.specs.Conditions.{HeadHolds, PartsHold, AreState};
ghost use Rattle.state.specs.ListCall.{Measures};

use atlite::Cause;
use layout::{HEAD, PART, STATE, STATE_SLOTS};
use term_words::Owner;

// Whether the counts are within their limits, the dictionary is one, and only zeros stand behind what is used.
#[tactic(auto, using(crate::specs::TestLaws::laws))]
fn is_head(w: &[u32]) -> bool
    requires { length w.now ≡ state_words }
    ensures { Decides (HeadHolds w.now) result }
{
    // One test after another: the check splits no longer chain of && where what is told is no equation.
    let n = w[0] as usize;
    let k = w[1] as usize;
    if n == 0 {
        return false;
    }
    if 4 < n {
        return false;
    }
    if 64 < k {
        return false;
    }
    if !words::all_zero(&w[HEAD + PART * n..]) {
        return false;
    }
    words::all_zero(&w[2 + 3 * k..HEAD]) && dictionary::is_dictionary(w, 2, k)
}

// Whether the parts of the `n` actors of a state with `k` words are actors'.
#[tactic(auto, using(crate::specs::TestLaws::laws))]
fn are_parts(w: &[u32], n: u32, k: u32, kinds: &[u8; STATE_SLOTS]) -> bool
    requires { (length w.now ≡ state_words) × (n ≤ 4) × (k ≤ 64) }
    ensures { Decides (PartsHold kinds.now k 0 n (drop head_size w.now)) result }
{
    for a in 0..n {
        let at = HEAD + PART * a as usize;
        let owner = Owner {
            actor: a,
            words: k,
            kinds,
        };
        if !actor::is_actor(&w[at..at + PART], &owner) {
            return false;
        }
    }
    true
}

// Whether words with such a head are a state.
#[tactic(auto, using(crate::specs::TestLaws::laws))]
fn are_actors(w: &[u32]) -> bool
    requires { (length w.now ≡ state_words) × HeadHolds w.now }
    ensures { Decides (AreState w.now) result }
{
    let Some(kinds) = entity_kinds::table(w, w[0] as usize) else {
        return false;
    };
    are_parts(w, w[0], w[1], &kinds)
}

// Whether 16,384 words are a state.
#[tactic(auto, using(crate::specs::TestLaws::laws))]
fn are_state(w: &[u32]) -> bool
    requires { length w.now ≡ state_words }
    ensures { Decides (AreState w.now) result }
{
    is_head(w) && are_actors(w)
}

// Whether `words` begins with the 16,384 words of a state.
//
// It answers exactly what the definitions say, of any words: false where they are too few, and where one word differs from the one
// layout that the state would have. So it is ruled out that a word that no rule reads passes with a value of its own, and that a
// state of the definitions is not taken for one.
pub fn is_state(words: &[u32]) -> bool
    ensures { result ≡ is_done (state_in words.now) }
{
    if words.len() < STATE {
        return false;
    }
    are_state(&words[..16384])
}

// The length of a state's listing, which is listed into no text.
#[tactic(auto, using(crate::specs::ListCall::laws))]
fn measure(state: &[u32]) -> usize
    requires { state_words ≤ length state.now }
    ensures { Measures state.now result }
{
    let mut none = [0u8; 0];
    lister::list_words(state, &mut none)
}

// Lists a state. Its length is asked first, since a refusal writes nothing.
#[tactic(auto, using(crate::specs::ListCall::laws))]
fn list_state(state: &[u32], text: &mut [u8]) -> Result<usize, Cause>
    requires { (state_words ≤ length state.now) × (is_done (state_in state.now) ≡ true) }
    ensures { ListsCall state.now text.old result text.new }
{
    if text.len() < measure(state) {
        return Err(Cause::ShortBuffer);
    }
    let n = lister::list_words(state, text);
    Ok(n)
}

// The causes in their order, then the listing.
#[tactic(auto, using(crate::specs::ListCall::laws))]
fn list_text(state: &[u32], text: &mut [u8]) -> Result<usize, Cause>
    ensures { ListsCall state.now text.old result text.new }
{
    if state.len() < STATE {
        return Err(Cause::ShortBuffer);
    }
    if !is_state(state) {
        return Err(Cause::Malformed);
    }
    list_state(state, text)
}

// Writes the listing of the state in the first 16,384 words of `state` in front of `text`.
//
// The answer and every byte of `text` afterwards are `list_call`'s, for any words: 6 where they are too few, 7 where they are no state,
// 6 where the listing does not fit; else its length. So it is ruled out that a refusal has written a byte, and that a byte behind the
// listing is changed.
#[tactic(auto, unfolding(promises::specs::Meaning::ListsCall))]
pub fn list(state: &[u32], text: &mut [u8]) -> Result<usize, Cause>
    ensures { (list_answer result ≡ (list_call state.now text.old).result) × (text.new ≡ (list_call state.now text.old).buffer) }
{
    list_text(state, text)
}
