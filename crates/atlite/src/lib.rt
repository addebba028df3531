// The language AT-LITE. The definitions are in specs/; here are the types of the answers that the engine's calls give, of what stops a call, and
// of the numbers that name actors and entities. specs/Answers.antt says which answer of document 01 each case is.
#![tactic(auto)]

ghost use Rattle.std.specs.Prelude.{◌≡◌};
ghost use Rattle.atlite.specs.Causes.{number};

use std::error::Error;
use std::fmt;

// The number of an actor, of an entity that an actor made (series m) and of a copy that arrived (series c): three counts that must
// not be mixed up.
#[derive(Clone, Copy)]
pub struct ActorNo(pub u8);

#[derive(Clone, Copy)]
pub struct MadeNo(pub u16);

#[derive(Clone, Copy)]
pub struct CopyNo(pub u16);

// What stops a call: the rows of document 01's table of causes, in its order.
#[derive(Clone, Copy, Debug, PartialEq, Eq)]
pub enum Cause {
    // The text is empty or too long.
    TextLength = 1,
    // The text is not of the grammar.
    Grammar = 2,
    // A variable is not bound, or may not be seen.
    Unbound = 3,
    // A list names one thing twice.
    Repeated = 4,
    // Too many brackets, words or nodes.
    Oversized = 5,
    // A lent buffer is too short.
    ShortBuffer = 6,
    // The words are no table, or no state.
    Malformed = 7,
    // There is no such actor.
    NoActor = 8,
    // The expression is a value and the inbox is empty.
    Idle = 9,
    // The receiver is null or a number.
    NoReference = 10,
    // The receiver is another actor's.
    Foreign = 11,
    // There is no such field or method, or the entity is of another kind.
    Missing = 12,
    // The future has a value already.
    Resolved = 13,
    // A future is to be resolved with a future.
    ResolvedWithFuture = 14,
    // An operand is no number, or the result is too large.
    NotNumber = 15,
    // A limit would be passed.
    Limit = 16,
}

impl Cause {
    // Document 01's number of the cause.
    pub fn number(self) -> u8
        ensures { result ≡ number self }
    {
        self as u8
    }
}

impl fmt::Display for Cause {
    fn fmt<W: fmt::Write>(&self, f: &mut fmt::Formatter<W>) -> fmt::Result {
        let n = self.number();
        write!(f, "refused with {n}")
    }
}

impl Error for Cause {}

// What a move did.
#[derive(Clone, Copy)]
pub enum Moved {
    Inner,
    Taken,
    Sent(ActorNo),
    Created(ActorNo),
}

// What a run came to: how many of its entries moved, and how many were refused.
#[derive(Clone, Copy)]
pub struct Ran {
    pub moves: usize,
    pub refusals: usize,
}
