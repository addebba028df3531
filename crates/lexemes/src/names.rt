// Words that are names: their numbers in the dictionary.
ghost use Rattle.std.specs.Prelude.{◌≡◌, true, false, ◌≤◌, length};
ghost use Rattle.std.proofs.Math.Seq.{slice};
ghost use Rattle.atlite.specs.Base.{bytes, same_bytes};
ghost use Rattle.atlite.specs.Lexicon.{is_word};
ghost use Rattle.scan.specs.Runs.{Run};
ghost use Rattle.lexemes.specs.Atoms.{NameOf, SpacedName};

use crate::source::Source;

// A word's number, and the position behind the word.
#[derive(Clone, Copy)]
pub struct Name {
    pub number: usize,
    pub end: usize,
}

impl Source<'_, '_> {
    // The number of the word from `at` to `end`.
    #[tactic(auto, using(crate::specs::NameLaws::laws))]
    pub fn word(&self, at: usize, end: usize) -> Option<Name>
        requires { Run self.now.text.now at end }
        ensures { NameOf self.now.text.now at result }
    {
        if scan::is_word(self.text, at, end) {
            if scan::named(self.text, at, end, b"apply") {
                return Some(Name { number: 7, end });
            }
            return self.place(at, end);
        }
        None
    }

    // The same of a word that is not `apply`.
    #[tactic(auto, using(crate::specs::NameLaws::laws))]
    fn place(&self, at: usize, end: usize) -> Option<Name>
        requires { Run self.now.text.now at end × (is_word (slice at end self.now.text.now) ≡ true) × (same_bytes (bytes "apply") (slice at end self.now.text.now) ≡ false) }
        ensures { NameOf self.now.text.now at result }
    {
        let i = self.words.find(&self.text[at..end])?;
        Some(Name { number: i + 8, end })
    }

    // The word at `at`.
    pub fn word_at(&self, at: usize) -> Option<Name>
        requires { at ≤ length self.now.text.now }
        ensures { NameOf self.now.text.now at result }
    {
        let end = scan::run_end(self.text, at);
        self.word(at, end)
    }

    // The same behind a space.
    #[tactic(auto, using(crate::specs::NameLaws::laws))]
    pub fn spaced_word(&self, at: usize) -> Option<Name>
        requires { at ≤ length self.now.text.now }
        ensures { SpacedName self.now.text.now at result }
    {
        if scan::starts(self.text, at, b" ") {
            return self.word_at(at + 1);
        }
        None
    }
}
