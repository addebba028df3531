// A method's header: its name and its parameters, in one word.
ghost use Rattle.std.specs.Prelude.{◌≡◌, ◌+◌, ◌*◌, ◌≤◌, ◌<◌, length};
ghost use Rattle.words.specs.Wide.{wide_limit, wide_third};
ghost use Rattle.lexemes.specs.Headers.{params_at, ItemsOf, NamesOf, ParamsOf, HeaderOf};

use crate::scratch::{LIMIT, method_word};
use crate::source::Source;

// Parameters: the position behind them, their count, and their names as one number.
#[derive(Clone, Copy)]
pub struct Params {
    pub end: usize,
    pub count: usize,
    pub packed: usize,
}

impl Params {
    // None, with the closing bracket before `end`.
    fn none(end: usize) -> Params
        ensures { result ≡ params_at end 0 0 }
    {
        Params {
            end,
            count: 0,
            packed: 0,
        }
    }

    // These behind one named `x`.
    fn behind(self, x: usize) -> Params
        requires { (self.count ≤ 2) × (self.packed < wide_third) × (x < wide_limit) }
        ensures { result ≡ params_at self.end (self.count + 1) (x + wide_limit * self.packed) }
    {
        Params {
            end: self.end,
            count: self.count + 1,
            packed: x + LIMIT * self.packed,
        }
    }
}

// A method's header: the position behind its parameters, and its word.
#[derive(Clone, Copy)]
pub struct Header {
    pub end: usize,
    pub word: u64,
}

impl Source<'_, '_> {
    // A method's name and its parameters.
    #[tactic(auto, using(crate::specs::Headers::laws))]
    pub fn method_head(&self, at: usize) -> Option<Header>
        requires { at ≤ length self.now.text.now }
        ensures { HeaderOf self.now.text.now at result }
    {
        let m = self.word_at(at)?;
        self.parameters(m.end, m.number)
    }

    // The parameters of the method named `m`.
    #[tactic(auto, using(crate::specs::Headers::laws))]
    fn parameters(&self, at: usize, m: usize) -> Option<Header>
        requires { (at ≤ length self.now.text.now) × (m < wide_limit) }
        ensures { ParamsOf m self.now.text.now at result }
    {
        if !scan::starts(self.text, at, b" (") {
            return None;
        }
        let p = self.names(at + 2)?;
        Some(Header {
            end: p.end,
            word: method_word(m, p.count, p.packed),
        })
    }

    // Parameters behind their opening bracket.
    #[tactic(auto, using(crate::specs::Headers::laws))]
    fn names(&self, at: usize) -> Option<Params>
        requires { at ≤ length self.now.text.now }
        ensures { NamesOf self.now.text.now at result }
    {
        if scan::starts(self.text, at, b")") {
            return Some(Params::none(at + 1));
        }
        let x = self.word_at(at)?;
        let rest = self.items(x.end, 2)?;
        Some(rest.behind(x.number))
    }

    // At most `k` more parameters to the closing bracket, each behind a space.
    #[tactic(auto, using(crate::specs::Headers::laws))]
    fn items(&self, at: usize, k: usize) -> Option<Params>
        requires { (at ≤ length self.now.text.now) × (k ≤ 2) }
        ensures { ItemsOf k self.now.text.now at result }
    {
        if scan::starts(self.text, at, b")") {
            return Some(Params::none(at + 1));
        }
        if k == 0 {
            return None;
        }
        let x = self.spaced_word(at)?;
        let rest = self.items(x.end, k - 1)?;
        Some(rest.behind(x.number))
    }
}
