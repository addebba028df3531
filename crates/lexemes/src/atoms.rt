// Atoms: expressions of one word.
ghost use Rattle.std.specs.Prelude.{◌≤◌, ◌<◌, length, drop, None};
ghost use Rattle.std.proofs.Math.Seq.{slice};
ghost use Rattle.atlite.specs.Lexicon.{dictionary};
ghost use Rattle.atlite.specs.Reader.{read_atom};
ghost use Rattle.words.specs.Wide.{wide_src};
ghost use Rattle.scan.specs.Runs.{Run};
ghost use Rattle.lexemes.specs.Atoms.{NumberIs};
ghost use Rattle.lexemes.specs.DescentContract.{Took};

use crate::numbers::decimal;
use crate::scratch::{Step, head, number_word, put};
use crate::source::Source;
use scan::kinds;

impl Source<'_, '_> {
    // An atom: a number, `null`, `this` or a word.
    #[tactic(auto, using(crate::specs::AtomLaws::laws))]
    pub fn atom(&self, at: usize, out: &mut [u64; 4096], o: usize) -> Option<Step>
        requires { (o ≤ at) × (at ≤ length self.now.text.now) }
        ensures { Took wide_src self.now.text.now at o out.old out.new (read_atom (dictionary self.now.text.now) (drop at self.now.text.now)) result }
    {
        let end = scan::run_end(self.text, at);
        if end == at {
            return None;
        }
        if let Some(n) = decimal(&self.text[at..end]) {
            return put(out, o, number_word(n), end, o + 1);
        }
        self.variable(at, end, out, o)
    }

    // An atom that is no number.
    #[tactic(auto, using(crate::specs::AtomLaws::laws))]
    fn variable(&self, at: usize, end: usize, out: &mut [u64; 4096], o: usize) -> Option<Step>
        requires { (o ≤ at) × (at ≤ length self.now.text.now) × Run self.now.text.now at end × (at < end) × NumberIs (slice at end self.now.text.now) None }
        ensures { Took wide_src self.now.text.now at o out.old out.new (read_atom (dictionary self.now.text.now) (drop at self.now.text.now)) result }
    {
        if scan::named(self.text, at, end, b"null") {
            return put(out, o, u64::from(kinds::NULL), end, o + 1);
        }
        if scan::named(self.text, at, end, b"this") {
            return put(out, o, u64::from(kinds::THIS), end, o + 1);
        }
        let x = self.word(at, end)?;
        put(out, o, head(kinds::THIS, x.number), x.end, o + 1)
    }
}
