// All of a part, region by region.
ghost use Rattle.std.specs.Prelude.{◌≡◌, true, false, ◌≤◌, ◌<◌, length, take, drop};
ghost use Rattle.layout.specs.Numbers.{expr_at, expr_size, bodies_size, bodies_at, part_size};
ghost use Rattle.actor.specs.Tests.{counts_hold, head_holds, expr_holds, inbox_holds, waiting_holds, end_holds, heap_holds, rest_holds};
ghost use Rattle.actor.specs.Bodies.{methods_reach, expr_reach};
ghost use Rattle.actor.specs.PartContract.{Decides, IsPart, Heads};

use crate::slots::Series;
use crate::values;
use layout::{
    BODIES, BODIES_SIZE, COPIED, COPIED_SIZE, EXPR, EXPR_SIZE, INBOX, MADE, MADE_SIZE, MESSAGE,
    MOST, QUEUE_SIZE, REST, SLOT, WAITING,
};
use term_words::Owner;
use wellformed::Terms;

// How many words an expression may have, and how many stand behind the slots of the copies.
const LONGEST: u32 = layout::EXPR_SIZE as u32;

const BEHIND: usize = layout::BODIES_SIZE + layout::REST_SIZE;

// The words of a part whose counts are within their limits, and whose they are.
#[derive(Clone, Copy)]
pub struct Part<'a> {
    pub words: &'a [u32],
    pub owner: Owner<'a>,
    ghost headed: { Heads words.now },
    ghost few: { owner.words ≤ 64 },
    ghost known: { owner.actor < 4 },
}

// The counts of a part: entities of both series, messages of both kinds, words of the expression.
#[tactic(auto, unfolding(crate::specs::Tests::counts_hold))]
fn counts(part: &[u32]) -> bool
    requires { length part.now ≡ part_size }
    ensures { result ≡ counts_hold part.now }
{
    part[1] <= 32 && part[2] <= 16 && part[3] <= 16 && part[4] <= 16 && part[5] <= LONGEST
}

// The moves, the counts and ten zeros.
#[tactic(auto, unfolding(crate::specs::Tests::head_holds))]
fn head(part: &[u32]) -> bool
    requires { length part.now ≡ part_size }
    ensures { result ≡ head_holds part.now }
{
    part[0] <= MOST && counts(part) && values::zeros(part, 6, 10)
}

impl Part<'_> {
    // The expression, whose words are counted in the head.
    #[tactic(auto, using(crate::specs::PartLaws::expr_laws))]
    fn expr(&self) -> bool
        ensures { result ≡ expr_holds self.now.words.now (expr_reach self.now.owner.kinds.now self.now.owner.actor self.now.owner.words (take expr_size (drop expr_at self.now.words.now))) }
    {
        let n = self.words[5] as usize;
        let region = &self.words[EXPR..INBOX];
        let terms = Terms {
            words: region,
            owner: self.owner,
        };
        match terms.expression() {
            Some(e) if e == n => {
                terms::nodes(region, 0, n) <= 256
                    && values::zeros(self.words, EXPR + n, EXPR_SIZE - n)
            }
            _ => false,
        }
    }

    // The inbox.
    #[tactic(auto, unfolding(crate::specs::Tests::inbox_holds))]
    fn inbox(&self) -> bool
        ensures { result ≡ inbox_holds self.now.words.now self.now.owner.kinds.now self.now.owner.actor self.now.owner.words }
    {
        let n = self.words[3] as usize;
        self.arrivals(INBOX, n)
            && values::zeros(self.words, INBOX + MESSAGE * n, QUEUE_SIZE - MESSAGE * n)
    }

    // The messages that wait at futures.
    #[tactic(auto, unfolding(crate::specs::Tests::waiting_holds))]
    fn waiting(&self) -> bool
        ensures { result ≡ waiting_holds self.now.words.now self.now.owner.kinds.now self.now.owner.actor self.now.owner.words }
    {
        let n = self.words[4] as usize;
        self.waiters(WAITING, n, self.words[1] as usize)
            && values::zeros(self.words, WAITING + MESSAGE * n, QUEUE_SIZE - MESSAGE * n)
    }

    // What stands behind the slots of series c, whose methods end at `d`: zeros, and behind all methods zeros to the end of the part.
    #[tactic(auto, unfolding(crate::specs::Tests::end_holds, crate::specs::Tests::copied_holds, crate::specs::Tests::bodies_hold))]
    fn end(&self, d: usize) -> bool
        requires { d ≤ bodies_size }
        ensures { result ≡ end_holds self.now.words.now d }
    {
        let c = self.words[2] as usize;
        values::zeros(self.words, COPIED + SLOT * c, COPIED_SIZE - SLOT * c)
            && terms::nodes(&self.words[BODIES..REST], 0, d) <= 768
            && values::zeros(self.words, BODIES + d, BEHIND - d)
    }

    // Both series, and the methods of all entities one behind the other.
    #[tactic(auto, using(crate::specs::PartLaws::heap_laws))]
    fn heap(&self) -> bool
        ensures { result ≡ heap_holds self.now.words.now self.now.owner.kinds.now self.now.owner.actor self.now.owner.words (methods_reach true self.now.owner.kinds.now self.now.owner.actor self.now.owner.words (take bodies_size (drop bodies_at self.now.words.now))) (methods_reach false self.now.owner.kinds.now self.now.owner.actor self.now.owner.words (take bodies_size (drop bodies_at self.now.words.now))) }
    {
        let m = self.words[1] as usize;
        let Some(e) = self.slots(MADE, self.words[1], 0, Series::Made) else {
            return false;
        };
        if !values::zeros(self.words, MADE + SLOT * m, MADE_SIZE - SLOT * m) {
            return false;
        }
        match self.slots(COPIED, self.words[2], e, Series::Copied) {
            Some(d) => self.end(d),
            None => false,
        }
    }

    // All but the head and the expression.
    #[tactic(auto, unfolding(crate::specs::Tests::rest_holds))]
    fn rest(&self) -> bool
        ensures { result ≡ rest_holds self.now.words.now self.now.owner.kinds.now self.now.owner.actor self.now.owner.words (methods_reach true self.now.owner.kinds.now self.now.owner.actor self.now.owner.words (take bodies_size (drop bodies_at self.now.words.now))) (methods_reach false self.now.owner.kinds.now self.now.owner.actor self.now.owner.words (take bodies_size (drop bodies_at self.now.words.now))) }
    {
        self.inbox() && self.waiting() && self.heap()
    }
}

// Whether the words `part` are those of an actor that holds the conditions of a state. No words of an actor are refused, and none are taken
// that are not an actor's to the last zero.
#[tactic(auto, using(crate::specs::PartLaws::actor_laws))]
pub fn is_actor(part: &[u32], owner: &Owner) -> bool
    requires { (length part.now ≡ part_size) × (owner.now.words ≤ 64) × (owner.now.actor < 4) }
    ensures { Decides (IsPart owner.now.kinds.now owner.now.actor owner.now.words part.now) result }
{
    if !head(part) {
        return false;
    }
    let p = Part {
        words: part,
        owner: *owner,
    };
    p.expr() && p.rest()
}
