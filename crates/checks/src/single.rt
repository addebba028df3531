// That no list of a script names one thing twice. What a list of fields or methods has is told by its signature, a name and a number of parameters;
// a field has no parameters.
ghost use Rattle.std.specs.Prelude.{◌≡◌, ◌≤◌, length};
ghost use Rattle.std.specs.Option.{IfSome};
ghost use Rattle.words.specs.Wide.{wide_signed};
ghost use Rattle.layout_laws.specs.LastThree.{fresh as fresh_in};
ghost use Rattle.checks.specs.Single.{apart as are_apart, own as own_of, noted as noted_by, Walked};
ghost use Rattle.checks.specs.SingleLines.{LinesSingle, Single};

use crate::tree;
use layout::kind;
use words::wide;

// Whether `x` is none of the three signatures in `kept`.
#[tactic(auto, unfolding(layout_laws::specs::LastThree::fresh))]
fn fresh(kept: u64, x: u64) -> bool
    ensures { result ≡ fresh_in wide_signed kept x }
{
    x != kept % wide::SIGNED
        && x != kept / wide::SIGNED % wide::SIGNED
        && x != kept / wide::SIGNED / wide::SIGNED % wide::SIGNED
}

// Whether the names among three parameters differ; a place is 0 where there are fewer.
#[tactic(auto, unfolding(crate::specs::Single::apart))]
fn apart(x: u64, y: u64, z: u64) -> bool
    ensures { result ≡ are_apart x y z }
{
    y == 0 || x != y && (z == 0 || x != z && y != z)
}

// Whether the names that the word `h` lists differ, and its own signature is none of those in `kept`.
#[tactic(auto, using(crate::specs::Single::laws))]
fn own(h: u64, kept: u64) -> bool
    ensures { result ≡ own_of h kept }
{
    let p = h / wide::KINDS;
    match (h % wide::KINDS) as u32 {
        kind::FUTURE => p % wide::LIMIT != p / wide::LIMIT % wide::LIMIT,
        kind::FIELD => fresh(kept, p % wide::SIGNED),
        kind::METHOD => {
            fresh(kept, p % wide::SIGNED)
                && apart(
                    p / wide::PARAMS % wide::LIMIT,
                    p / wide::PARAMS / wide::LIMIT % wide::LIMIT,
                    p / wide::PARAMS / wide::THIRD % wide::LIMIT,
                )
        }
        _ => true,
    }
}

// The signatures, with that of the header `h`.
#[tactic(auto, using(crate::specs::Single::laws))]
fn noted(h: u64, kept: u64) -> u64
    ensures { result ≡ noted_by h kept }
{
    if h % wide::KINDS < 128 {
        return kept;
    }
    h / wide::KINDS % wide::SIGNED + wide::SIGNED * (kept % wide::THREE_SIGNED)
}

// The end of the `n` trees at `at`, if no list in them names one thing twice. `kept` has the signatures of the headers before them.
// A recursion and no loop, since what it answers is said of the trees that are left.
fn walk(s: &[u64], at: usize, n: usize, kept: u64) -> Option<usize>
    requires { (length s.now ≤ 4096) × (at ≤ 4096) }
    ensures walked { Walked s.now (length s.now) at n kept result }
    ensures behind { IfSome result (λ e. (at ≤ e) × (e ≤ 4096)) }
{
    if n == 0 {
        return Some(at);
    }
    if s.len() <= at {
        return None;
    }
    let h = s[at];
    if !own(h, kept) {
        return None;
    }
    let m = walk(s, at + 1, tree::outer(h), 0)?;
    let e = walk(s, m, tree::inner(h), 0)?;
    walk(s, e, n - 1, noted(h, kept))
}

// Whether names are single in the `left` lines at `at`. A recursion, since what it answers is said of the lines that are left.
fn lines_single(s: &[u64], at: usize, left: usize) -> bool
    requires { (length s.now ≤ 4096) × (at ≤ 4096) }
    ensures { LinesSingle s.now (length s.now) at left result }
{
    if left == 0 {
        return true;
    }
    if s.len() <= at {
        return false;
    }
    let Some(e) = walk(s, tree::line_start(s[at], at), 1, 0) else {
        return false;
    };
    lines_single(s, e, left - 1)
}

// Whether names are single in the script that the lines in the first `words` words join to.
#[tactic(auto, using(crate::specs::SingleLines::laws))]
pub fn single(s: &[u64; 4096], words: usize, lines: usize) -> bool
    requires { words ≤ 4096 }
    ensures { Single s.now words lines result }
{
    lines_single(&s[..words], 0, lines)
}
