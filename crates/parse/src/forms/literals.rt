// Literals: fields and methods, each with its header word before its expression.
ghost use Rattle.std.specs.Prelude.{◌≡◌, ◌+◌, ◌≤◌, ◌<◌, length};
ghost use Rattle.atlite.specs.Table.{count_fields, count_methods};
ghost use Rattle.words.specs.Wide.{wide_fields, wide_methods};
ghost use Rattle.lexemes.specs.DescentContract.{Ended, Reads, Lists, literals, literal_words, fields_from, field_at, methods_from, method_at};

use crate::forms::one;
use lexemes::scratch::{Listed, Step, close, head, literal_head};
use lexemes::source::Source;
use scan::kinds as kind;

// Fields and methods.
#[cycle(expressions)]
#[tactic(auto, using(crate::specs::Cycle::literal_laws))]
pub fn literal(s: &Source, at: usize, out: &mut [u64; 4096], o: usize, k: u8) -> Option<Step>
    requires { (o < at) × (at ≤ length s.now.text.now) }
    ensures { Reads (literal_words k) (literals s.now.text.now) s.now.text.now at o out.old out.new result }
{
    let f = fields(s, at, out, o + 1, 0)?;
    bodies(s, f.at, out, o, f.out, k, f.count)
}

// The methods of a literal with `c` fields and its closing bracket, with their words at `p` and the head word's place at `o`.
#[cycle(expressions)]
#[tactic(auto, using(crate::specs::Cycle::bodies_laws))]
fn bodies(
    s: &Source,
    at: usize,
    out: &mut [u64; 4096],
    o: usize,
    p: usize,
    k: u8,
    c: usize,
) -> Option<Step>
    requires { (p ≤ at) × (at ≤ length s.now.text.now) × (o < 4096) × (c ≤ 4) }
    ensures { Ended k c s.now.text.now at p out.old o out.new result }
{
    let m = methods(s, at, out, p, 0)?;
    close(s, m.at, out, o, literal_head(k, c, m.count), m.out)
}

// Fields, with `b` before them and at most four in all.
#[cycle(expressions)]
#[tactic(auto, using(crate::specs::Cycle::fields_laws))]
fn fields(s: &Source, at: usize, out: &mut [u64; 4096], o: usize, b: usize) -> Option<Listed>
    requires { (o ≤ at) × (at ≤ length s.now.text.now) × (b ≤ 4) }
    ensures { Lists wide_fields count_fields 4 b (fields_from b s.now.text.now) s.now.text.now at o out.old out.new result }
{
    let end = Some(Listed {
        at,
        out: o,
        count: b,
    });
    if b == 4 {
        return end;
    }
    if scan::starts(s.text, at, b" (field ") {
        return field(s, at + 8, out, o, b);
    }
    end
}

// A field behind its opening, and those after it.
#[cycle(expressions)]
#[tactic(auto, using(crate::specs::Cycle::field_laws))]
fn field(s: &Source, at: usize, out: &mut [u64; 4096], o: usize, b: usize) -> Option<Listed>
    requires { (o < at) × (at ≤ length s.now.text.now) × (b < 4) }
    ensures { Lists wide_fields count_fields 4 b (field_at b s.now.text.now) s.now.text.now at o out.old out.new result }
{
    let f = s.word_at(at)?;
    let e = one(s, f.end, out, o, head(kind::FIELD, f.number))?;
    fields(s, e.at, out, e.out, b + 1)
}

// Methods, in the same way. They are functions of their own, since what they promise names another reader for the list, for its parts and for its end.
#[cycle(expressions)]
#[tactic(auto, using(crate::specs::Cycle::methods_laws))]
fn methods(s: &Source, at: usize, out: &mut [u64; 4096], o: usize, b: usize) -> Option<Listed>
    requires { (o ≤ at) × (at ≤ length s.now.text.now) × (b ≤ 4) }
    ensures { Lists wide_methods count_methods 4 b (methods_from b s.now.text.now) s.now.text.now at o out.old out.new result }
{
    let end = Some(Listed {
        at,
        out: o,
        count: b,
    });
    if b == 4 {
        return end;
    }
    if scan::starts(s.text, at, b" (method ") {
        return method(s, at + 9, out, o, b);
    }
    end
}

#[cycle(expressions)]
#[tactic(auto, using(crate::specs::Cycle::method_laws))]
fn method(s: &Source, at: usize, out: &mut [u64; 4096], o: usize, b: usize) -> Option<Listed>
    requires { (o < at) × (at ≤ length s.now.text.now) × (b < 4) }
    ensures { Lists wide_methods count_methods 4 b (method_at b s.now.text.now) s.now.text.now at o out.old out.new result }
{
    let m = s.method_head(at)?;
    let e = one(s, m.end, out, o, m.word)?;
    methods(s, e.at, out, e.out, b + 1)
}
