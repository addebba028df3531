// Zeros, names and values at a position of a part.
ghost use Rattle.std.specs.Prelude.{◌≡◌, true, ◌+◌, ◌≤◌, length};
ghost use Rattle.std.specs.List.{list_all};
ghost use Rattle.atlite.specs.Base.{member, all};
ghost use Rattle.decoding.specs.Reading.{names_in};
ghost use Rattle.layout_laws.specs.Parse.{value_at, values_at, zeros_at};
ghost use Rattle.term_words.specs.Kinds.{allowed};
ghost use Rattle.term_words.specs.Words.{within, holds};
ghost use Rattle.actor.specs.Tests.{names_hold};

use crate::part::Part;
use layout::NAME_LIMIT;
use term_words::Owner;

// Whether the `n` words at `at` are zeros.
#[tactic(auto, using(crate::specs::ValueLaws::zeros_laws))]
pub fn zeros(w: &[u32], at: usize, n: usize) -> bool
    requires { at + n ≤ length w.now }
    ensures { result ≡ zeros_at w.now n at }
{
    words::all_zero(&w[at..at + n])
}

// Whether `y` is one of the `n` names in `x`. A recursion, for a loop would have what is left of `x` and of `n` as two variables of its own.
#[tactic(auto, using(crate::specs::ValueLaws::among_laws))]
fn among(x: u32, n: usize, y: u32) -> bool
    ensures { result ≡ member y (names_in n x) }
{
    n != 0 && (y == x % NAME_LIMIT || among(x / NAME_LIMIT, n - 1, y))
}

// Whether `x` is `n` different names. A recursion, as `among` is.
#[tactic(auto, using(crate::specs::ValueLaws::names_laws))]
pub fn names(x: u32, n: usize, owner: &Owner) -> bool
    ensures { result ≡ names_hold owner.now.words n x }
{
    if n == 0 {
        return x == 0;
    }
    let y = x % NAME_LIMIT;
    let rest = x / NAME_LIMIT;
    owner.is_name(y) && !among(rest, n - 1, y) && names(rest, n - 1, owner)
}

// Whether the actor may hold all of the values `xs`.
fn held(xs: &[u32], owner: &Owner) -> bool
    ensures { result ≡ list_all (λ x. within (holds true owner.now.kinds.now owner.now.actor) (value_at x)) xs.now }
{
    xs.iter().all(|x| owner.value(*x, true))
}

impl Part<'_> {
    // The same of the `n` values at `at`.
    #[tactic(auto, using(crate::specs::ValueLaws::values_laws))]
    pub fn values(&self, at: usize, n: usize) -> bool
        requires { at + n ≤ length self.now.words.now }
        ensures { result ≡ within (all (allowed self.now.owner.kinds.now self.now.owner.actor)) (values_at self.now.words.now n at) }
    {
        held(&self.words[at..at + n], &self.owner)
    }
}
