// The messages of an inbox, and those that wait at a future. A message is six words: a send's word, the receiver, the arguments and zeros.
ghost use Rattle.std.specs.Prelude.{◌≡◌, ◌+◌, ◌*◌, ◌≤◌, length};
ghost use Rattle.layout.specs.Numbers.{message_size, slot_size, made_at};
ghost use Rattle.actor.specs.Tests.{sent_at, arrived_at, arrivals_at, waits_at, waiters_at};

use crate::part::Part;
use crate::values;
use layout::{DIGIT, MADE, MESSAGE, NAME_LIMIT, NUMBER_LIMIT, OWNER_UNIT, PAYLOAD, SLOT};

impl Part<'_> {
    // Whether the message at `at` may be sent, whoever receives it.
    #[tactic(auto, unfolding(crate::specs::Tests::sent_at))]
    fn sent(&self, at: usize) -> bool
        requires { at + message_size ≤ length self.now.words.now }
        ensures { result ≡ sent_at self.now.owner.kinds.now self.now.owner.actor self.now.owner.words self.now.words.now at }
    {
        let x = self.words[at];
        let n = (x % PAYLOAD / NAME_LIMIT / 4) as usize;
        x / PAYLOAD == 14
            && n < 5
            && self.owner.message_name(x)
            && self.values(at + 2, n)
            && values::zeros(self.words, at + 2 + n, 4 - n)
    }

    // Whether the message at `at` may stand in the inbox of the actor.
    #[tactic(auto, unfolding(crate::specs::Tests::arrived_at, term_words::specs::Words::holds))]
    fn arrived(&self, at: usize) -> bool
        requires { at + message_size ≤ length self.now.words.now }
        ensures { result ≡ arrived_at self.now.owner.kinds.now self.now.owner.actor self.now.owner.words self.now.words.now at }
    {
        let x = self.words[at + 1];
        x / OWNER_UNIT == 384 + self.owner.actor && self.owner.value(x, true) && self.sent(at)
    }

    // The same of the `n` messages from `at` on.
    #[tactic(auto, using(crate::specs::MessageLaws::inbox_laws))]
    pub fn arrivals(&self, at: usize, n: usize) -> bool
        requires { at + message_size * n ≤ length self.now.words.now }
        ensures { result ≡ arrivals_at self.now.owner.kinds.now self.now.owner.actor self.now.owner.words self.now.words.now n at }
    {
        for i in 0..n {
            if !self.arrived(at + MESSAGE * i) {
                return false;
            }
        }
        true
    }

    // Whether the message at `at` waits at an open future of the actor, from the number `low` on, of `m` entities.
    #[tactic(auto, unfolding(crate::specs::Tests::waits_at))]
    fn waits(&self, at: usize, m: usize, low: usize) -> bool
        requires { (at + message_size ≤ length self.now.words.now) × (made_at + slot_size * m ≤ length self.now.words.now) }
        ensures { result ≡ waits_at self.now.owner.kinds.now self.now.owner.actor self.now.owner.words self.now.words.now m low at }
    {
        let x = self.words[at + 1];
        let n = (x % NUMBER_LIMIT) as usize;
        x / NUMBER_LIMIT == 768 + 2 * self.owner.actor
            && low <= n
            && n < m
            && self.words[MADE + SLOT * n] % DIGIT == 3
            && self.sent(at)
    }

    // The same of the `n` messages from `at` on, in order of their futures.
    #[tactic(auto, using(crate::specs::MessageLaws::waiting_laws))]
    pub fn waiters(&self, at: usize, n: usize, m: usize) -> bool
        requires { (at + message_size * n ≤ length self.now.words.now) × (made_at + slot_size * m ≤ length self.now.words.now) }
        ensures { result ≡ waiters_at self.now.owner.kinds.now self.now.owner.actor self.now.owner.words self.now.words.now m n 0 at }
    {
        let mut low = 0;
        for i in 0..n {
            let next = at + MESSAGE * i;
            if !self.waits(next, m, low) {
                return false;
            }
            low = (self.words[next + 1] % NUMBER_LIMIT) as usize;
        }
        true
    }
}
