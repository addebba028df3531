// Scopes. For each word stands the level at which it is bound. The level is one more in each literal that hides what is around it, so
// that what is bound at a lower level is out of scope, and no list of words is kept.
ghost use Rattle.std.specs.Prelude.{◌≤◌};
ghost use Rattle.term_words.specs.Ends.{Sees, Opens, Refers};

use layout::{NO_NAME, PAYLOAD};

// Whether the variable `x` is bound at the level.
#[tactic(auto, using(crate::specs::ScopeLaws::laws))]
pub fn sees(scope: &[u16; 128], level: u16, x: u32) -> bool
    ensures { Sees scope.now level x result }
{
    x < NO_NAME && scope[x as usize] == level
}

// The level of a literal's parts. What is bound outside stays bound only in an object's.
pub fn opened(level: u16, h: u32) -> u16
    requires { level ≤ 4097 }
    ensures { Opens level h result }
{
    if h / PAYLOAD == 15 {
        return level;
    }
    level + 1
}

// Whether the parts of a literal may refer.
#[tactic(auto, using(crate::specs::ScopeLaws::laws))]
pub fn refers(refs: bool, h: u32) -> bool
    ensures { Refers refs h result }
{
    refs && h / PAYLOAD <= 15
}
