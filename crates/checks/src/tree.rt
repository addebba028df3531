// How many operands a wide word has, by its kind.
ghost use Rattle.std.specs.Prelude.{◌≡◌, ◌≤◌};
ghost use Rattle.checks.specs.Lines.{Start};
ghost use Rattle.checks.specs.Trees.{outer as outer_of, inner as inner_of};

use layout::kind;
use words::wide;

// Those in the word's own scope: of a literal the fields, of a message the receiver and the arguments.
#[tactic(auto, using(crate::specs::TreeContract::laws))]
pub fn outer(h: u64) -> usize
    ensures { result ≡ outer_of h }
{
    let k = h % wide::KINDS;
    let p = h / wide::KINDS;
    match k as u32 {
        kind::LET => 1,
        kind::FUTURE => 0,
        kind::CALL | kind::SEND | kind::ASK => (1 + p / wide::LIMIT % 4) as usize,
        kind::OBJECT | kind::ISOLATE | kind::ACTOR => (p % wide::DIGIT) as usize,
        kind::RESOLVE | kind::SEQ => 2,
        kind::WHEN | kind::FIELD => 1,
        _ => kinds::operands(k as u32) as usize,
    }
}

// Those in the scope that the word opens: of a literal the methods.
#[tactic(auto, using(crate::specs::TreeContract::laws))]
pub fn inner(h: u64) -> usize
    ensures { result ≡ inner_of h }
{
    let k = h % wide::KINDS;
    let p = h / wide::KINDS;
    match k as u32 {
        kind::LET | kind::FUTURE | kind::FN | kind::WHEN | kind::METHOD => 1,
        kind::OBJECT | kind::ISOLATE | kind::ACTOR => (p / wide::DIGIT % wide::DIGIT) as usize,
        _ => 0,
    }
}

// Where the expression of a line begins that begins at `at` with the word `h`: behind it, if it is a definition's header.
#[tactic(auto, using(crate::specs::Lines::laws))]
pub fn line_start(h: u64, at: usize) -> usize
    requires { at ≤ 8192 }
    ensures { Start h at result }
{
    if h % wide::KINDS == 130 {
        return at + 1;
    }
    at
}
