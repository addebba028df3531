// What one word says: names, references, and the name of a call.
ghost use Rattle.std.specs.Prelude.{◌≡◌, ◌&&◌, ◌%◌, ◌≤◌, leb};
ghost use Rattle.atlite.specs.Valid.{is_name, is_variable};
ghost use Rattle.layout.specs.Numbers.{payload};
ghost use Rattle.decoding.specs.TermReading.{ref_in};
ghost use Rattle.term_words.specs.Kinds.{kind_of, there, allowed};
ghost use Rattle.layout_laws.specs.Parse.{value_at};
ghost use Rattle.term_words.specs.Words.{within, holds, send_in, call_in, lone as is_lone};

use crate::Owner;
use heap::EntityNo;
use layout::{NAME_LIMIT, NUMBER_LIMIT, PAYLOAD, kind, tag};

// The slots of a part, as words count them: so many kinds a table has for an actor.
pub const SLOTS: u32 = layout::SLOT_COUNT as u32;

// The kind in a table of kinds, where an entity is.
#[tactic(auto, using(crate::specs::WordLaws::there_laws))]
fn there(k: u8) -> Option<u8>
    ensures { result ≡ there k }
{
    (k != 0).then_some(k)
}

// A name that no script can write has one argument, and its place is empty.
#[tactic(auto, unfolding(crate::specs::Words::lone))]
pub fn lone(x: u32, n: u32) -> bool
    ensures { result ≡ is_lone x n }
{
    x == 0 && n == 1
}

impl Owner<'_> {
    // The name of a field or a method.
    #[tactic(auto, unfolding(atlite::specs::Valid::is_name))]
    pub fn is_name(&self, x: u32) -> bool
        ensures { result ≡ is_name self.now.words x }
    {
        7 <= x && u64::from(x) < 8 + u64::from(self.words)
    }

    // A variable or a parameter, of which `this` is none.
    #[tactic(auto, unfolding(atlite::specs::Valid::is_variable))]
    pub fn is_variable(&self, x: u32) -> bool
        ensures { result ≡ is_variable self.now.words x }
    {
        0 < x && u64::from(x) < 8 + u64::from(self.words)
    }

    // The kind of what the payload `q` of a reference names, if that is there.
    #[tactic(auto, using(crate::specs::WordLaws::kind_laws))]
    pub fn kind_of(&self, q: u32) -> Option<u8>
        ensures { result ≡ there (kind_of self.now.kinds.now (ref_in q)) }
    {
        let b = q / NUMBER_LIMIT / 2;
        if 4 <= b {
            return None;
        }
        match heap::entity_no(q) {
            EntityNo::Made(n) if n.0 < 32 => there(self.kinds[(SLOTS * b + n.0 as u32) as usize]),
            EntityNo::Copied(n) if n.0 < 16 => {
                there(self.kinds[(SLOTS * b + (32 + n.0 as u32)) as usize])
            }
            _ => None,
        }
    }

    // Whether the actor may hold the reference of payload `q`: an isolate only if it is its own.
    #[tactic(auto, using(crate::specs::WordLaws::reference_laws))]
    pub fn reference(&self, q: u32) -> bool
        ensures { result ≡ allowed self.now.kinds.now self.now.actor (ref_in q) }
    {
        match self.kind_of(q) {
            Some(k) => self.actor == q / NUMBER_LIMIT / 2 || k != 2,
            None => false,
        }
    }

    // A name, and from `low` to `high` arguments.
    pub fn named(&self, x: u32, n: u32, low: u32, high: u32) -> bool
        ensures { result ≡ is_name self.now.words x && (leb low n && leb n high) }
    {
        self.is_name(x) && low <= n && n <= high
    }

    // The name and the number of arguments in the word `h` of a call.
    pub fn call_name(&self, h: u32) -> bool
        requires { self.now.words ≤ 64 }
        ensures { result ≡ call_in self.now.words (h % payload) }
    {
        let p = h % PAYLOAD;
        let x = p % NAME_LIMIT;
        let n = p / NAME_LIMIT / 4;
        match p / NAME_LIMIT % 4 {
            tag::PLAIN => self.named(x, n, 0, 3),
            tag::RESOLVE => lone(x, n),
            _ => false,
        }
    }

    // The name and the number of arguments in the word `h` of a send.
    pub fn message_name(&self, h: u32) -> bool
        requires { self.now.words ≤ 64 }
        ensures { result ≡ send_in self.now.words (h % payload) }
    {
        let p = h % PAYLOAD;
        let x = p % NAME_LIMIT;
        let n = p / NAME_LIMIT / 4;
        match p / NAME_LIMIT % 4 {
            tag::PLAIN => self.named(x, n, 0, 3),
            tag::TWO_WAY => self.named(x, n, 1, 4),
            _ => lone(x, n),
        }
    }

    // Whether the word `x` is a value that may be held: by the actor, or, without `refs`, by an isolate.
    #[tactic(auto, using(crate::specs::WordLaws::value_laws))]
    pub fn value(&self, x: u32, refs: bool) -> bool
        ensures { result ≡ within (holds refs self.now.kinds.now self.now.actor) (value_at x) }
    {
        let q = x % PAYLOAD;
        match x / PAYLOAD {
            kind::NULL => q == 0,
            kind::NUMBER => true,
            kind::REFERENCE => refs && self.reference(q),
            _ => false,
        }
    }
}
