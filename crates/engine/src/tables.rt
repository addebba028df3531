// Loading a table into a state.
ghost use Rattle.std.specs.Prelude.{◌≡◌};
ghost use Rattle.atlite.specs.Answers.{load_answer};
ghost use Rattle.promises.specs.Meaning.{load_call};
ghost use Rattle.engine.specs.LoadContract.{LoadsCall};

use atlite::Cause;
use layout::{STATE, TABLE};

// The causes in their order: lengths, words that are no table, a script that is too large. The last is found before a word is written.
fn load_lent(table: &[u32], state: &mut [u32]) -> Result<(), Cause>
    ensures { LoadsCall table.now state.old result state.new }
{
    if table.len() < TABLE {
        return Err(Cause::ShortBuffer);
    }
    if state.len() < STATE {
        return Err(Cause::ShortBuffer);
    }
    if !script::is_table(table) {
        return Err(Cause::Malformed);
    }
    if !loading::load_words(table, state) {
        return Err(Cause::Limit);
    }
    Ok(())
}

// Loads the table in the first 1,280 words of `table`: the state in which its script begins stands in the first 16,384 of `state`.
//
// The answer and every word of `state` afterwards are `load_call`'s, for any words: 6 where a buffer is short, 7 where the words are no
// table, 16 where the expanded script is too large, and `state` is left alone then; what lies past its published words always is. So it
// is ruled out that a refusal has written a word, and that a state depends on the words that stood there before.
#[tactic(auto, unfolding(crate::specs::LoadContract::LoadsCall))]
pub fn load(table: &[u32], state: &mut [u32]) -> Result<(), Cause>
    ensures { (load_answer result ≡ (load_call table.now state.old).result) × (state.new ≡ (load_call table.now state.old).buffer) }
{
    load_lent(table, state)
}
