// Expressions by their operator, each form from its parts, and messages with their arguments. Forms hold expressions: these functions and
// those of the module below call each other in a cycle, which has one proof. The files of that proof are named after all functions of the
// cycle, and a name of over 255 bytes cannot be kept: then every crate above would prove the cycle again.
// `out` and a place in it stay two arguments: a form's head word is written last, at `o`, before its words, which go on at a place of their own.
ghost use Rattle.std.specs.Prelude.{◌≡◌, ◌+◌, ◌≤◌, ◌<◌, length};
ghost use Rattle.atlite.specs.Script.{count_srcs};
ghost use Rattle.words.specs.Wide.{wide_src, wide_srcs};
ghost use Rattle.lexemes.specs.DescentContract.{Follow, Argued, Reads, Lists, exprs, spaceds, ones, one_words, mids, mid_words, brackets, forms, sends, send_words, args_from};

mod literals;

use crate::forms::literals::literal;
use lexemes::scratch::{Listed, Step, close, head, head2, put};
use lexemes::source::Source;
use scan::kinds as kind;

// An expression.
#[cycle(expressions)]
#[tactic(auto, using(crate::specs::Cycle::expr_laws))]
pub fn expr(s: &Source, at: usize, out: &mut [u64; 4096], o: usize) -> Option<Step>
    requires { (o ≤ at) × (at ≤ length s.now.text.now) }
    ensures { Reads wide_src (exprs s.now.text.now) s.now.text.now at o out.old out.new result }
{
    if scan::starts(s.text, at, b"(") {
        return bracket(s, at + 1, out, o);
    }
    s.atom(at, out, o)
}

// An expression behind a space.
#[cycle(expressions)]
#[tactic(auto, using(crate::specs::Cycle::spaced_laws))]
pub fn spaced(s: &Source, at: usize, out: &mut [u64; 4096], o: usize) -> Option<Step>
    requires { (o ≤ at) × (at ≤ length s.now.text.now) }
    ensures { Reads wide_src (spaceds s.now.text.now) s.now.text.now at o out.old out.new result }
{
    if scan::starts(s.text, at, b" ") {
        return expr(s, at + 1, out, o);
    }
    None
}

// What stands behind an opening bracket, by its operator.
#[cycle(expressions)]
#[tactic(auto, using(crate::specs::Cycle::bracket_laws))]
fn bracket(s: &Source, at: usize, out: &mut [u64; 4096], o: usize) -> Option<Step>
    requires { (o < at) × (at ≤ length s.now.text.now) }
    ensures { Reads wide_src (brackets s.now.text.now) s.now.text.now at o out.old out.new result }
{
    let end = scan::run_end(s.text, at);
    let k = scan::keyword(s.text, at, end)?;
    form(s, end, out, o, k)
}

// The form of the operator of kind `k`.
#[cycle(expressions)]
#[tactic(auto, using(crate::specs::Cycle::form_laws))]
fn form(s: &Source, at: usize, out: &mut [u64; 4096], o: usize, k: u8) -> Option<Step>
    requires { (o < at) × (at ≤ length s.now.text.now) }
    ensures { Reads wide_src (forms k s.now.text.now) s.now.text.now at o out.old out.new result }
{
    let row = u32::from(k);
    let named = kinds::operator(row);
    let n = kinds::operands(row);
    if named == 1 {
        return parts(s, at, out, o, o + 1, u64::from(k), n);
    }
    if named == 2 {
        return between(s, at, out, o, k, n - 1);
    }
    match k {
        kind::LET => let_in(s, at, out, o),
        kind::FUTURE => future(s, at, out, o),
        kind::CALL => message(s, at, out, o, k),
        kind::SEND => message(s, at, out, o, k),
        kind::OBJECT => literal(s, at, out, o, k),
        kind::ISOLATE => literal(s, at, out, o, k),
        kind::ACTOR => literal(s, at, out, o, k),
        kind::ASK => message(s, at, out, o, k),
        kind::FN => func(s, at, out, o),
        kind::RESOLVE => parts(s, at, out, o, o + 1, u64::from(k), 2),
        kind::WHEN => between(s, at, out, o, k, 1),
        kind::SEQ => parts(s, at, out, o, o + 1, u64::from(k), 2),
        _ => None,
    }
}

// `n` expressions and the closing bracket, with the expressions' words at `p` and the place of the head word `w` at `o`.
#[cycle(expressions)]
#[tactic(auto, using(crate::specs::Cycle::parts_laws))]
fn parts(
    s: &Source,
    at: usize,
    out: &mut [u64; 4096],
    o: usize,
    p: usize,
    w: u64,
    n: u32,
) -> Option<Step>
    requires { (p ≤ at) × (at ≤ length s.now.text.now) × (o < 4096) }
    ensures { Follow w n s.now.text.now at p out.old o out.new result }
{
    if n == 0 {
        return close(s, at, out, o, w, p);
    }
    let e = spaced(s, at, out, p)?;
    parts(s, e.at, out, o, e.out, w, n - 1)
}

// The forms behind their operator, with the head word's place at `o`. One expression:
#[cycle(expressions)]
#[tactic(auto, using(crate::specs::Cycle::one_laws))]
pub fn one(s: &Source, at: usize, out: &mut [u64; 4096], o: usize, w: u64) -> Option<Step>
    requires { (o < at) × (at ≤ length s.now.text.now) }
    ensures { Reads (one_words w) (ones s.now.text.now) s.now.text.now at o out.old out.new result }
{
    parts(s, at, out, o, o + 1, w, 1)
}

// An expression, a word and `n` expressions.
#[cycle(expressions)]
#[tactic(auto, using(crate::specs::Cycle::between_laws))]
fn between(s: &Source, at: usize, out: &mut [u64; 4096], o: usize, k: u8, n: u32) -> Option<Step>
    requires { (o < at) × (at ≤ length s.now.text.now) }
    ensures { Reads (mid_words k n) (mids n s.now.text.now) s.now.text.now at o out.old out.new result }
{
    let e = spaced(s, at, out, o + 1)?;
    let x = s.spaced_word(e.at)?;
    parts(s, x.end, out, o, e.out, head(k, x.number), n)
}

// A word, and two expressions in its scope.
#[cycle(expressions)]
#[tactic(auto, using(crate::specs::Cycle::let_in_laws))]
fn let_in(s: &Source, at: usize, out: &mut [u64; 4096], o: usize) -> Option<Step>
    requires { (o < at) × (at ≤ length s.now.text.now) }
    ensures { Reads wide_src (forms 11 s.now.text.now) s.now.text.now at o out.old out.new result }
{
    let x = s.spaced_word(at)?;
    parts(s, x.end, out, o, o + 1, head(kind::LET, x.number), 2)
}

// Two words, and an expression in their scope.
#[cycle(expressions)]
#[tactic(auto, using(crate::specs::Cycle::future_laws))]
fn future(s: &Source, at: usize, out: &mut [u64; 4096], o: usize) -> Option<Step>
    requires { (o < at) × (at ≤ length s.now.text.now) }
    ensures { Reads wide_src (forms 12 s.now.text.now) s.now.text.now at o out.old out.new result }
{
    let x = s.spaced_word(at)?;
    let y = s.spaced_word(x.end)?;
    one(s, y.end, out, o, head2(kind::FUTURE, x.number, y.number))
}

// A word, and an expression in its scope.
#[cycle(expressions)]
#[tactic(auto, using(crate::specs::Cycle::func_laws))]
fn func(s: &Source, at: usize, out: &mut [u64; 4096], o: usize) -> Option<Step>
    requires { (o < at) × (at ≤ length s.now.text.now) }
    ensures { Reads wide_src (forms 65 s.now.text.now) s.now.text.now at o out.old out.new result }
{
    let x = s.spaced_word(at)?;
    one(s, x.end, out, o, head(kind::FN, x.number))
}

// Of a call, a send or an ask: who is asked, the name of the message, and its arguments.
#[cycle(expressions)]
#[tactic(auto, using(crate::specs::Cycle::message_laws))]
fn message(s: &Source, at: usize, out: &mut [u64; 4096], o: usize, k: u8) -> Option<Step>
    requires { (o < at) × (at ≤ length s.now.text.now) }
    ensures { Reads (send_words k) (sends s.now.text.now) s.now.text.now at o out.old out.new result }
{
    let e = spaced(s, at, out, o + 1)?;
    let m = s.spaced_word(e.at)?;
    arguments(s, m.end, out, o, e.out, k, m.number)
}

// The arguments of the message `m`, with their words at `p` and the head word's place at `o`.
#[cycle(expressions)]
#[tactic(auto, using(crate::specs::Cycle::arguments_laws))]
fn arguments(
    s: &Source,
    at: usize,
    out: &mut [u64; 4096],
    o: usize,
    p: usize,
    k: u8,
    m: usize,
) -> Option<Step>
    requires { (p ≤ at) × (at ≤ length s.now.text.now) × (o < 4096) × (m < 4096) }
    ensures { Argued k m s.now.text.now at p out.old o out.new result }
{
    let a = args(s, at, out, p, 0)?;
    put(out, o, head2(k, m, a.count), a.at, a.out)
}

// Arguments to the closing bracket, with `b` before them and at most three in all.
#[cycle(expressions)]
#[tactic(auto, using(crate::specs::Cycle::args_laws))]
fn args(s: &Source, at: usize, out: &mut [u64; 4096], o: usize, b: usize) -> Option<Listed>
    requires { (o ≤ at) × (at ≤ length s.now.text.now) × (b ≤ 3) }
    ensures { Lists wide_srcs count_srcs 3 b (args_from b s.now.text.now) s.now.text.now at o out.old out.new result }
{
    if scan::starts(s.text, at, b")") {
        return Some(Listed {
            at: at + 1,
            out: o,
            count: b,
        });
    }
    if b == 3 {
        return None;
    }
    let e = spaced(s, at, out, o)?;
    args(s, e.at, out, e.out, b + 1)
}
