// Runs of words and bytes, compared and copied; `wide` has the numbers of the scratch form of a script.
#![tactic(auto)]

ghost use Rattle.std.specs.Prelude.{◌≡◌, ◌+◌, ◌≤◌, eqb, length};
ghost use Rattle.std.proofs.lemmas.List.Edits.{sets};
ghost use Rattle.layout.specs.Pack.{zeros};
ghost use Rattle.words.specs.Runs.{Still, Same, Copied};

pub mod wide;

// The bits that `x` or `y` has: none exactly when both are zero.
#[tactic(auto, using(crate::specs::Runs::laws))]
fn gathered(x: u32, y: u32) -> u32
    ensures { Still (eqb x 0) y 0 (eqb result 0) }
{
    x | y
}

// Whether every word of `w` is zero. It looks at all of them and compares once, in the end, so that it runs on many at a time: `all` stops at the first
// that is not zero, and with it the loop no longer does.
#[tactic(auto, using(crate::specs::Runs::laws))]
pub fn all_zero(w: &[u32]) -> bool
    ensures { Same w.now (zeros (length w.now)) result }
{
    let mut bits = 0;
    for x in w {
        bits = gathered(bits, *x);
    }
    bits == 0
}

// Puts the first `n` bytes of `from` in front of `to`.
#[tactic(auto, unfolding(crate::specs::Runs::Copied))]
pub fn copy_bytes(from: &[u8], n: usize, to: &mut [u8])
    requires { (n ≤ length from.now) × (n ≤ length to.old) }
    ensures { Copied from.now n to.old to.new }
{
    to[..n].copy_from_slice(&from[..n]);
}

// Writes the words `x` from `at` on.
#[tactic(auto, using(crate::specs::Puts::laws))]
pub fn put_words(w: &mut [u32], at: usize, x: &[u32])
    requires { at + length x.now ≤ length w.old }
    ensures { w.new ≡ sets w.old at x.now }
{
    w[at..at + x.len()].copy_from_slice(x);
}
