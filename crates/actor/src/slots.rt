// The entities of an actor, each in a slot of eight words. A slot is judged by where its methods end, which is where those of the next
// begin.
ghost use Rattle.std.specs.Prelude.{◌≡◌, true, false, ◌||◌, ◌+◌, ◌*◌, ◌/◌, ◌%◌, ◌≤◌, eqb, length, get_or, take, drop};
ghost use Rattle.std.specs.Option.{IfSome};
ghost use Rattle.atlite.specs.Term.{made as series_m, ref};
ghost use Rattle.layout.specs.Numbers.{digit_limit, digits_limit, slot_size, bodies_size, bodies_at};
ghost use Rattle.layout_laws.specs.Parse.{value_at};
ghost use Rattle.term_words.specs.Kinds.{future_by};
ghost use Rattle.term_words.specs.Words.{within};
ghost use Rattle.actor.specs.Tests.{fields_at, object_at, object_end, plain_at, open_at, settled_at, resolver_at, made_end, copied_end, slot_end, slots_end};
ghost use Rattle.actor.specs.Bodies.{methods_reach};

use crate::part::Part;
use crate::values;
use layout::{BODIES, DIGIT, DIGITS, PAYLOAD, REST, SLOT, SLOT_BODY, SLOT_UNIT, entity};
use term_words::word;
use wellformed::Terms;

// The two series of an actor's entities: those that it made, and copies that arrived, which are isolates alone.
#[derive(Clone, Copy)]
pub enum Series {
    Made,
    Copied,
}

// The kinds of a future, open or with its value.
fn is_future(k: u8) -> bool
    ensures { result ≡ (eqb k 3 || eqb k 4) }
{
    k == 3 || k == 4
}

// A word as a position.
fn wide(x: u32) -> usize
    ensures { (result ≡ x) × (result ≤ 4294967295) }
{
    x as usize
}

impl Part<'_> {
    // Whether the word `x` is a reference to a future.
    #[tactic(auto, using(crate::specs::SlotLaws::future_laws))]
    fn future(&self, x: u32) -> bool
        ensures { result ≡ within (future_by self.now.owner.kinds.now) (value_at x) }
    {
        if x / PAYLOAD != 3 {
            return false;
        }
        match self.owner.kind_of(x % PAYLOAD) {
            Some(k) => is_future(k),
            None => false,
        }
    }

    // Whether the entity `n` that the actor made is a future.
    #[tactic(auto, using(crate::specs::SlotLaws::own_laws))]
    fn own_future(&self, n: u32) -> bool
        ensures { result ≡ future_by self.now.owner.kinds.now (ref self.now.owner.actor series_m n) }
    {
        n < 32 && is_future(self.owner.kinds[(word::SLOTS * self.owner.actor + n) as usize])
    }

    // The `n` fields of the slot at `at`.
    #[tactic(auto, unfolding(crate::specs::Tests::fields_at))]
    fn fields(&self, at: usize, n: usize) -> bool
        requires { at + slot_size ≤ length self.now.words.now }
        ensures { result ≡ fields_at self.now.owner.kinds.now self.now.owner.actor self.now.owner.words self.now.words.now n at }
    {
        n < 5
            && values::names(self.words[at + 1], n, &self.owner)
            && self.values(at + 2, n)
            && values::zeros(self.words, at + 2 + n, 4 - n)
    }

    // Whether an object or an isolate stands in the slot at `at` whose methods begin at `b` and end at `e`: the slot has how many words those are.
    #[tactic(auto, unfolding(crate::specs::Tests::object_at))]
    fn is_object(&self, at: usize, b: usize, e: usize) -> bool
        requires { (at + slot_size ≤ length self.now.words.now) × (b ≤ bodies_size) }
        ensures { result ≡ object_at self.now.owner.kinds.now self.now.owner.actor self.now.owner.words self.now.words.now at b e }
    {
        self.fields(at, (self.words[at] / DIGIT % DIGIT) as usize)
            && self.words[at + 7] == 0
            && b + wide(self.words[at + SLOT_BODY]) == e
    }

    // Where the methods end of the object or isolate in the slot at `at`. They begin at `b`, and only an object's may refer.
    #[tactic(auto, using(crate::specs::SlotLaws::object_laws))]
    fn object(&self, at: usize, b: usize, refs: bool) -> Option<usize>
        requires { (at + slot_size ≤ length self.now.words.now) × (b ≤ bodies_size) }
        ensures value { result ≡ object_end self.now.owner.kinds.now self.now.owner.actor self.now.owner.words self.now.words.now at b (methods_reach refs self.now.owner.kinds.now self.now.owner.actor self.now.owner.words (take bodies_size (drop bodies_at self.now.words.now)) (get_or self.now.words.now at 0 / digits_limit % digit_limit) b) }
        ensures short { IfSome result (λ e. e ≤ bodies_size) }
    {
        let bodies = Terms {
            words: &self.words[BODIES..REST],
            owner: self.owner,
        };
        let e = bodies.methods(b, (self.words[at] / DIGITS % DIGIT) as usize, refs)?;
        self.is_object(at, b, e).then_some(e)
    }

    // Neither fields nor methods.
    #[tactic(auto, unfolding(crate::specs::Tests::plain_at))]
    fn plain(&self, at: usize) -> bool
        requires { at + slot_size ≤ length self.now.words.now }
        ensures { result ≡ plain_at self.now.words.now at }
    {
        self.words[at] / DIGIT % DIGITS == 0 && self.words[at + 1] == 0
    }

    // An open future.
    #[tactic(auto, unfolding(crate::specs::Tests::open_at))]
    fn open(&self, at: usize) -> bool
        requires { at + slot_size ≤ length self.now.words.now }
        ensures { result ≡ open_at self.now.words.now at }
    {
        self.plain(at) && values::zeros(self.words, at + 2, 6)
    }

    // A future with its value, which is no future.
    #[tactic(auto, unfolding(crate::specs::Tests::settled_at, term_words::specs::Words::holds))]
    fn settled(&self, at: usize) -> bool
        requires { at + slot_size ≤ length self.now.words.now }
        ensures { result ≡ settled_at self.now.owner.kinds.now self.now.owner.actor self.now.words.now at }
    {
        let x = self.words[at + 2];
        self.plain(at)
            && self.owner.value(x, true)
            && !self.future(x)
            && values::zeros(self.words, at + 3, 5)
    }

    // A resolver of a future of this actor.
    #[tactic(auto, unfolding(crate::specs::Tests::resolver_at))]
    fn resolver(&self, at: usize) -> bool
        requires { at + slot_size ≤ length self.now.words.now }
        ensures { result ≡ resolver_at self.now.owner.kinds.now self.now.owner.actor self.now.words.now at }
    {
        self.plain(at)
            && self.own_future(self.words[at + 2])
            && values::zeros(self.words, at + 3, 5)
    }

    // The slot at `at`, the `n`-th of series m.
    #[tactic(auto, using(crate::specs::SlotLaws::made_laws))]
    fn made(&self, at: usize, n: u32, b: usize) -> Option<usize>
        requires { (at + slot_size ≤ length self.now.words.now) × (b ≤ bodies_size) }
        ensures value { result ≡ made_end self.now.owner.kinds.now self.now.owner.actor self.now.owner.words self.now.words.now (methods_reach true self.now.owner.kinds.now self.now.owner.actor self.now.owner.words (take bodies_size (drop bodies_at self.now.words.now))) (methods_reach false self.now.owner.kinds.now self.now.owner.actor self.now.owner.words (take bodies_size (drop bodies_at self.now.words.now))) n at b }
        ensures short { IfSome result (λ e. e ≤ bodies_size) }
    {
        if self.words[at] / SLOT_UNIT != n {
            return None;
        }
        match self.words[at] % DIGIT {
            entity::OBJECT => self.object(at, b, true),
            entity::ISOLATE => self.object(at, b, false),
            entity::OPEN => self.open(at).then_some(b),
            entity::RESOLVED => self.settled(at).then_some(b),
            entity::RESOLVER => self.resolver(at).then_some(b),
            _ => None,
        }
    }

    // The slot at `at`, the `n`-th of series c, which has isolates alone.
    #[tactic(auto, using(crate::specs::SlotLaws::copied_laws))]
    fn copied(&self, at: usize, n: u32, b: usize) -> Option<usize>
        requires { (at + slot_size ≤ length self.now.words.now) × (b ≤ bodies_size) }
        ensures value { result ≡ copied_end self.now.owner.kinds.now self.now.owner.actor self.now.owner.words self.now.words.now (methods_reach true self.now.owner.kinds.now self.now.owner.actor self.now.owner.words (take bodies_size (drop bodies_at self.now.words.now))) (methods_reach false self.now.owner.kinds.now self.now.owner.actor self.now.owner.words (take bodies_size (drop bodies_at self.now.words.now))) n at b }
        ensures short { IfSome result (λ e. e ≤ bodies_size) }
    {
        if self.words[at] / SLOT_UNIT != n {
            return None;
        }
        if self.words[at] % DIGIT != 2 {
            return None;
        }
        self.object(at, b, false)
    }

    // The slot at `at`, the `n`-th of its series.
    #[tactic(auto, using(crate::specs::SlotLaws::slot_laws))]
    fn slot(&self, at: usize, n: u32, b: usize, series: Series) -> Option<usize>
        requires { (at + slot_size ≤ length self.now.words.now) × (b ≤ bodies_size) }
        ensures value { result ≡ slot_end self.now.owner.kinds.now self.now.owner.actor self.now.owner.words self.now.words.now (methods_reach true self.now.owner.kinds.now self.now.owner.actor self.now.owner.words (take bodies_size (drop bodies_at self.now.words.now))) (methods_reach false self.now.owner.kinds.now self.now.owner.actor self.now.owner.words (take bodies_size (drop bodies_at self.now.words.now))) series n at b }
        ensures short { IfSome result (λ e. e ≤ bodies_size) }
    {
        match series {
            Series::Made => self.made(at, n, b),
            Series::Copied => self.copied(at, n, b),
        }
    }

    // The `k` slots at `at` of a series, whose methods begin at `b`.
    #[tactic(auto, using(crate::specs::SlotLaws::slots_laws))]
    pub fn slots(&self, at: usize, k: u32, b: usize, series: Series) -> Option<usize>
        requires { (at + slot_size * k ≤ length self.now.words.now) × (b ≤ bodies_size) }
        ensures value { result ≡ slots_end (slot_end self.now.owner.kinds.now self.now.owner.actor self.now.owner.words self.now.words.now (methods_reach true self.now.owner.kinds.now self.now.owner.actor self.now.owner.words (take bodies_size (drop bodies_at self.now.words.now))) (methods_reach false self.now.owner.kinds.now self.now.owner.actor self.now.owner.words (take bodies_size (drop bodies_at self.now.words.now))) series) k 0 at b }
        ensures short { IfSome result (λ e. e ≤ bodies_size) }
    {
        let mut e = b;
        for n in 0..k {
            e = self.slot(at + SLOT * n as usize, n, e, series)?;
        }
        Some(e)
    }
}
