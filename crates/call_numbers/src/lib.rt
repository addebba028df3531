// The numbers in which a caller that is not Rattle reads the engine's answers: one function for each of the six calls.
//
// Each returns 0 where the call was done, else the number that its refusal is told by: document 01's of a cause, and a byte as it is (crate
// `refusals`). Lengths, counts and the kind of a move go to places that the caller lends, and where the call was refused these keep what they
// held. Nothing here stands on the engine: what a number says is settled by the answer alone, so that a wrong number is refused without it.
// Calls that answer alike keep a function each: each is public.
#![tactic(auto)]

ghost use Rattle.std.specs.Prelude.{◌≡◌};
ghost use Rattle.call_numbers.specs.Status.{status_of};
ghost use Rattle.promises.specs.CallNumbers.{cause, place, itself, kind_of, other_of, moves_of, refusals_of};
ghost use Rattle.refusals.specs.ReturnedAs.{returned_as, as_is, moved_as, ran_as};

use atlite::{Moved, Ran};
use refusals::Refusal;

// What stands for the actor in an answer that names none: a number that no actor has.
const NO_ACTOR: u32 = 255;

// What is returned of each call.
fn status<A: Copy, C: Refusal>(answer: Result<A, C>) -> u32
    ensures { result ≡ status_of C.number answer }
{
    match answer {
        Ok(_) => 0,
        Err(c) => u32::from(c.number()),
    }
}

// A script read into a table.
#[tactic(auto, using(crate::specs::Status::laws))]
pub fn tabled<C: Refusal>(read: Result<(), C>) -> u32
    ensures { result ≡ cause (returned_as as_is C.number read) }
{
    status(read)
}

// A table printed: the length of its text to `bytes`.
#[tactic(auto, using(crate::specs::Status::laws), unfolding(refusals::specs::ReturnedAs::returned_as, refusals::specs::ReturnedAs::as_is, promises::specs::CallNumbers::place, promises::specs::CallNumbers::itself))]
pub fn printed<C: Refusal>(print: Result<usize, C>, bytes: &mut usize) -> u32
    ensures value { result ≡ cause (returned_as as_is C.number print) }
    ensures bytes_after { bytes.new ≡ place itself bytes.old (returned_as as_is C.number print) }
{
    if let Ok(printed) = print {
        *bytes = printed;
    }
    status(print)
}

// A move made: its kind to `kind`, and to `other` the actor that it sent to or created.
#[tactic(auto, using(crate::specs::Status::laws), unfolding(refusals::specs::ReturnedAs::returned_as, refusals::specs::ReturnedAs::moved_as, promises::specs::CallNumbers::place, promises::specs::CallNumbers::kind_of, promises::specs::CallNumbers::other_of))]
pub fn moved<C: Refusal>(step: Result<Moved, C>, kind: &mut u32, other: &mut u32) -> u32
    ensures value { result ≡ cause (returned_as moved_as C.number step) }
    ensures kind_after { kind.new ≡ place kind_of kind.old (returned_as moved_as C.number step) }
    ensures other_after { other.new ≡ place other_of other.old (returned_as moved_as C.number step) }
{
    if let Ok(made) = step {
        (*kind, *other) = match made {
            Moved::Inner => (1, NO_ACTOR),
            Moved::Taken => (2, NO_ACTOR),
            Moved::Sent(to) => (3, u32::from(to.0)),
            Moved::Created(new) => (4, u32::from(new.0)),
        };
    }
    status(step)
}

// A table loaded into a state.
#[tactic(auto, using(crate::specs::Status::laws))]
pub fn loaded<C: Refusal>(load: Result<(), C>) -> u32
    ensures { result ≡ cause (returned_as as_is C.number load) }
{
    status(load)
}

// Entries run: how many moves were made to `moves`, and how many refused to `refusals`.
#[tactic(auto, using(crate::specs::Status::laws), unfolding(refusals::specs::ReturnedAs::returned_as, refusals::specs::ReturnedAs::ran_as, promises::specs::CallNumbers::place, promises::specs::CallNumbers::moves_of, promises::specs::CallNumbers::refusals_of))]
pub fn ran<C: Refusal>(run: Result<Ran, C>, moves: &mut usize, refusals: &mut usize) -> u32
    ensures value { result ≡ cause (returned_as ran_as C.number run) }
    ensures moves_after { moves.new ≡ place moves_of moves.old (returned_as ran_as C.number run) }
    ensures refusals_after { refusals.new ≡ place refusals_of refusals.old (returned_as ran_as C.number run) }
{
    if let Ok(counts) = run {
        *moves = counts.moves;
        *refusals = counts.refusals;
    }
    status(run)
}

// A state listed: the length of the listing to `bytes`.
#[tactic(auto, using(crate::specs::Status::laws), unfolding(refusals::specs::ReturnedAs::returned_as, refusals::specs::ReturnedAs::as_is, promises::specs::CallNumbers::place, promises::specs::CallNumbers::itself))]
pub fn listed<C: Refusal>(list: Result<usize, C>, bytes: &mut usize) -> u32
    ensures value { result ≡ cause (returned_as as_is C.number list) }
    ensures bytes_after { bytes.new ≡ place itself bytes.old (returned_as as_is C.number list) }
{
    if let Ok(listed) = list {
        *bytes = listed;
    }
    status(list)
}

#[cfg(test)]
mod tests;
