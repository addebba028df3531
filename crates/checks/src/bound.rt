// That every variable of a script is bound.
//
// `last` keeps for each name the level of its innermost binding, 0 where it has none. Levels count the binders around; a name is in scope
// where its level is above the base. An isolate's or an actor's literal hides what is bound around it: inside, the level is the base.
ghost use Rattle.std.specs.Prelude.{◌≡◌, ◌+◌, ◌≤◌, ◌<◌, length, replicate};
ghost use Rattle.std.specs.Option.{IfSome};
ghost use Rattle.checks.specs.Trees.{inner};
ghost use Rattle.checks.specs.BoundLines.{LinesBound, AllBound};
ghost use Rattle.checks.specs.Bound.{sees as sees_in, Base, binds as binds_of, bind_all, Scanned};
ghost use Rattle.checks.specs.Scope.{Kept};

use crate::{scope, tree};
use layout::kind;
use words::wide;

// Whether the word `h` is no variable, or is one in scope.
#[tactic(auto, unfolding(crate::specs::Bound::sees))]
fn sees(h: u64, base: u16, last: &[u16; 4096]) -> bool
    ensures { result ≡ sees_in h base last.now }
{
    let x = (h / wide::KINDS % wide::LIMIT) as usize;
    h % wide::KINDS != 6 || x == 0 || base < last[x]
}

// The base inside the word `h`.
#[tactic(auto, using(crate::specs::Bound::laws))]
fn base_of(h: u64, base: u16, level: u16) -> u16
    ensures { Base h base level result }
{
    match (h % wide::KINDS) as u32 {
        kind::ISOLATE | kind::ACTOR => level,
        _ => base,
    }
}

// The names that the word `h` binds, three of 12 bits, 0 where there are fewer.
#[tactic(auto, using(crate::specs::Bound::laws))]
fn binds(h: u64) -> u64
    ensures { result ≡ binds_of h }
{
    let p = h / wide::KINDS;
    match (h % wide::KINDS) as u32 {
        kind::LET | kind::FUTURE | kind::FN | kind::WHEN => p,
        kind::METHOD => p / wide::PARAMS,
        _ => 0,
    }
}

// The end of the `n` trees at `at`, if every variable in them is bound. A recursion, as `single::walk` is.
#[cycle(scans)]
fn scan(
    s: &[u64],
    at: usize,
    n: usize,
    base: u16,
    level: u16,
    last: &mut [u16; 4096],
) -> Option<usize>
    requires { (length s.now ≤ 4096) × (at ≤ 4096) × (level ≤ at) }
    ensures scanned { Scanned s.now (length s.now) at n base level last.old result }
    ensures kept { Kept last.old last.new }
    ensures behind { IfSome result (λ e. (at ≤ e) × (e ≤ 4096)) }
{
    if n == 0 {
        return Some(at);
    }
    if s.len() <= at {
        return None;
    }
    let h = s[at];
    if !sees(h, base, last) {
        return None;
    }
    let within = base_of(h, base, level);
    let m = scan(s, at + 1, tree::outer(h), within, level, last)?;
    let e = scan_inside(s, m, h, within, level, last)?;
    scan(s, e, n - 1, base, level, last)
}

// The same of the trees at `at` that stand in the scope that the word `h` opens.
#[cycle(scans)]
fn scan_inside(
    s: &[u64],
    at: usize,
    h: u64,
    base: u16,
    level: u16,
    last: &mut [u16; 4096],
) -> Option<usize>
    requires { (length s.now ≤ 4096) × (at ≤ 4096) × (level < at) }
    ensures scanned { Scanned s.now (length s.now) at (inner h) base (level + 1) (bind_all last.old (binds_of h) (level + 1)) result }
    ensures kept { Kept last.old last.new }
    ensures behind { IfSome result (λ e. (at ≤ e) × (e ≤ 4096)) }
{
    let names = binds(h);
    let old = scope::bind(last, names, level + 1);
    let e = scan(s, at, tree::inner(h), base, level + 1, last);
    scope::unbind(last, names, old);
    e
}

// Whether variables are bound in the `left` lines at `at`. A definition's word is bound for the lines below it, so it is a recursion: the word is
// unbound again when those are read.
fn lines_bound(s: &[u64], at: usize, left: usize, level: u16, last: &mut [u16; 4096]) -> bool
    requires { (length s.now ≤ 4096) × (at ≤ 4096) × (level ≤ at) }
    ensures lines_bound { LinesBound s.now (length s.now) at left level last.old result }
    ensures kept { Kept last.old last.new }
{
    if left == 0 {
        return true;
    }
    if s.len() <= at {
        return false;
    }
    let h = s[at];
    if h % wide::KINDS != 130 {
        let Some(e) = scan(s, at, 1, 0, level, last) else {
            return false;
        };
        return lines_bound(s, e, left - 1, level, last);
    }
    let Some(e) = scan(s, at + 1, 1, 0, level, last) else {
        return false;
    };
    let x = (h / wide::KINDS % wide::LIMIT) as usize;
    let old = scope::swap(last, x, level + 1);
    let r = lines_bound(s, e, left - 1, level + 1, last);
    scope::swap(last, x, old);
    r
}

// Whether every variable is bound in the script that the lines in the first `words` words join to. `last` is all zero, and is left so.
#[tactic(auto, using(crate::specs::BoundLines::all_laws))]
pub fn bound(s: &[u64; 4096], words: usize, lines: usize, last: &mut [u16; 4096]) -> bool
    requires { (words ≤ 4096) × (last.old ≡ replicate 4096 0) }
    ensures all_bound { AllBound s.now words lines result }
    ensures kept { Kept last.old last.new }
{
    lines_bound(&s[..words], 0, lines, 0, last)
}
