// Headers of fields and methods, and the counts in the words of calls and literals.
//
// What a literal's fields or methods are told by is their signature, with which their headers begin: a name, and of a method the number of its
// parameters. Those of a list are kept in one number, nine bits each, the last one lowest. There are at most four, so that one is compared
// with three.
ghost use Rattle.std.specs.Prelude.{◌≡◌, ◌&&◌, ◌/◌, ◌%◌, ◌≤◌, leb};
ghost use Rattle.atlite.specs.Valid.{parameters};
ghost use Rattle.layout.specs.Numbers.{tagged_limit, digit_limit};
ghost use Rattle.layout_laws.specs.LastThree.{fresh, noted as noted_in};
ghost use Rattle.layout_laws.specs.Parse.{params_at};
ghost use Rattle.term_words.specs.Words.{within};
ghost use Rattle.term_words.specs.Ends.{FieldHeader, two, third, empty, MethodHeader, Arguments};

use crate::Owner;
use layout::{
    DIGIT, METHOD_UNIT, NAME_LIMIT, NO_NAME, PAYLOAD, SECOND_PLACE, TAGGED_LIMIT, THIRD_PLACE,
};

// Signatures are below the first, three of them in one number below the second.
const SIGNED: u64 = TAGGED_LIMIT as u64;

const THREE_SIGNED: u64 = SIGNED * SIGNED * SIGNED;

// Whether the signature of the header `h` is none of the three in `kept`.
#[tactic(auto, unfolding(layout_laws::specs::LastThree::fresh))]
fn is_fresh(h: u32, kept: u64) -> bool
    ensures { result ≡ fresh tagged_limit kept (h % tagged_limit) }
{
    let x = u64::from(h % TAGGED_LIMIT);
    x != kept % SIGNED && x != kept / SIGNED % SIGNED && x != kept / SIGNED / SIGNED % SIGNED
}

// The signatures, with that of the header `h`.
#[tactic(auto, using(crate::specs::NameLaws::fresh_laws))]
pub fn noted(h: u32, kept: u64) -> u64
    ensures { result ≡ noted_in tagged_limit kept (h % tagged_limit) }
{
    u64::from(h % TAGGED_LIMIT) + SIGNED * (kept % THREE_SIGNED)
}

// Two empty places.
#[tactic(auto, unfolding(crate::specs::Ends::empty))]
fn are_empty(y: u32, z: u32) -> bool
    ensures { result ≡ empty y z }
{
    y == NO_NAME && z == NO_NAME
}

// At most four fields, and at most four methods.
pub fn is_small(p: u32) -> bool
    ensures { result ≡ leb (p % digit_limit) 4 && leb (p / digit_limit) 4 }
{
    p % DIGIT <= 4 && p / DIGIT <= 4
}

// How many terms stand behind a call or a send with payload `p`: the receiver and its arguments.
pub fn arguments(p: u32) -> usize
    ensures { Arguments p result }
{
    (1 + p / NAME_LIMIT / 4) as usize
}

impl Owner<'_> {
    // Whether the word `h` is the header of a field with a new name.
    #[tactic(auto, using(crate::specs::HeaderLaws::field_laws))]
    pub fn field_header(&self, h: u32, kept: u64) -> bool
        requires { self.now.words ≤ 64 }
        ensures { FieldHeader self.now.words kept h result }
    {
        h / PAYLOAD == 128 && self.is_name(h % PAYLOAD) && is_fresh(h, kept)
    }

    // Two different variables.
    #[tactic(auto, unfolding(crate::specs::Ends::two))]
    pub fn are_two(&self, x: u32, y: u32) -> bool
        ensures { result ≡ two self.now.words x y }
    {
        self.is_variable(x) && self.is_variable(y) && x != y
    }

    // A third one.
    #[tactic(auto, unfolding(crate::specs::Ends::third))]
    fn is_third(&self, x: u32, y: u32, z: u32) -> bool
        ensures { result ≡ third self.now.words x y z }
    {
        self.is_variable(z) && x != z && y != z
    }

    // Whether the places of the header `h` of a method are different variables, as many as it counts.
    #[tactic(auto, using(crate::specs::HeaderLaws::param_laws))]
    fn has_parameters(&self, h: u32) -> bool
        requires { self.now.words ≤ 64 }
        ensures { result ≡ within (parameters self.now.words) (params_at h) }
    {
        let x = h / TAGGED_LIMIT % NAME_LIMIT;
        let y = h / SECOND_PLACE % NAME_LIMIT;
        let z = h / THIRD_PLACE % NAME_LIMIT;
        match h / NAME_LIMIT % 4 {
            0 => x == NO_NAME && are_empty(y, z),
            1 => self.is_variable(x) && are_empty(y, z),
            2 => self.are_two(x, y) && z == NO_NAME,
            _ => self.are_two(x, y) && self.is_third(x, y, z),
        }
    }

    // Whether the word `h` is the header of a method with a new signature and with parameters.
    #[tactic(auto, using(crate::specs::HeaderLaws::method_laws))]
    pub fn method_header(&self, h: u32, kept: u64) -> bool
        requires { self.now.words ≤ 64 }
        ensures { MethodHeader self.now.words kept h result }
    {
        h / METHOD_UNIT == 3
            && self.is_name(h % NAME_LIMIT)
            && is_fresh(h, kept)
            && self.has_parameters(h)
    }
}
