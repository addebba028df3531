// Lines: an expression or a definition, with the end of the line; and all lines of a text.
ghost use Rattle.std.specs.Prelude.{◌≤◌, ◌<◌, length};
ghost use Rattle.words.specs.Wide.{wide_line};
ghost use Rattle.parse.specs.TextLaws.{Closing, Parses};
ghost use Rattle.parse.specs.Lines.{LineEnd, definitions, sentences, line_of};
ghost use Rattle.lexemes.specs.DescentContract.{Reads};

use crate::Parsed;
use crate::forms::{expr, one};
use lexemes::scratch::{Step, head};
use lexemes::source::Source;
use scan::kinds as kind;

// The end of a line.
#[tactic(auto, using(crate::specs::Lines::laws))]
fn newline(s: &Source, at: usize, p: usize) -> Option<Step>
    requires { at ≤ length s.now.text.now }
    ensures { LineEnd s.now.text.now at p result }
{
    if scan::starts(s.text, at, b"\n") {
        return Some(Step { at: at + 1, out: p });
    }
    None
}

// A definition behind its opening.
#[tactic(auto, using(crate::specs::Lines::laws))]
fn definition(s: &Source, at: usize, out: &mut [u64; 4096], o: usize) -> Option<Step>
    requires { (o < at) × (at ≤ length s.now.text.now) }
    ensures { Reads wide_line (definitions s.now.text.now) s.now.text.now at o out.old out.new result }
{
    let x = s.word_at(at)?;
    let e = one(s, x.end, out, o, head(kind::DEF, x.number))?;
    newline(s, e.at, e.out)
}

// An expression as a line.
#[tactic(auto, using(crate::specs::Lines::laws))]
fn sentence(s: &Source, at: usize, out: &mut [u64; 4096], o: usize) -> Option<Step>
    requires { (o ≤ at) × (at ≤ length s.now.text.now) }
    ensures { Reads wide_line (sentences s.now.text.now) s.now.text.now at o out.old out.new result }
{
    let e = expr(s, at, out, o)?;
    newline(s, e.at, e.out)
}

// A line.
#[tactic(auto, using(crate::specs::Lines::laws))]
fn line(s: &Source, at: usize, out: &mut [u64; 4096], o: usize) -> Option<Step>
    requires { (o ≤ at) × (at ≤ length s.now.text.now) }
    ensures { Reads wide_line (line_of s.now.text.now) s.now.text.now at o out.old out.new result }
{
    if scan::starts(s.text, at, b"(def ") {
        return definition(s, at + 5, out, o);
    }
    sentence(s, at, out, o)
}

// Whether the line at `at` is an expression, on which a script may end.
#[tactic(auto, using(crate::specs::TextLaws::laws))]
fn ends(s: &Source, at: usize) -> bool
    requires { at ≤ length s.now.text.now }
    ensures { Closing s.now.text.now at result }
{
    !scan::starts(s.text, at, b"(def ")
}

// The lines of a text.
#[tactic(auto, using(crate::specs::TextLaws::laws))]
pub fn lines(s: &Source, out: &mut [u64; 4096]) -> Option<Parsed>
    ensures { Parses s.now.text.now out.new result }
{
    let mut at = 0;
    let mut o = 0;
    let mut n = 0;
    let mut last = false;
    while at < s.text.len() {
        let l = line(s, at, out, o)?;
        last = ends(s, at);
        at = l.at;
        o = l.out;
        n += 1;
    }
    if last {
        return Some(Parsed { words: o, lines: n });
    }
    None
}
