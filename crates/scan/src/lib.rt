// The words of a text: where a run of letters and digits ends, which reserved word it is, its number, and the text's dictionary.
#![tactic(auto)]

ghost use Rattle.std.specs.Prelude.{◌≤◌, length};
ghost use Rattle.scan.specs.WordNumbers.{Dictionary};

mod bytes;
mod codes;
mod keywords;
pub mod kinds;
mod vocabulary;

pub use bytes::{is_digit, named, run_end, starts};
pub use codes::{high_part, low_part};
pub use keywords::{is_word, keyword};
pub use vocabulary::{Vocabulary, Words};

// The dictionary of a text, run by run.
#[tactic(auto, using(crate::specs::DictionaryLaws::laws))]
pub fn scan(text: &[u8], words: &mut Vocabulary)
    requires { length text.now ≤ 4096 }
    ensures { Dictionary text.now words.new.low words.new.high words.new.count words.new.apply }
{
    words.count = 0;
    words.apply = false;
    let mut at = 0;
    while at < text.len() {
        let end = run_end(text, at);
        words.note(text, at, end);
        at = end + 1;
    }
}
