// Whether words are an actor's part of a state.
//
// Each region is judged by its own words and the kinds of the entities of the whole state. The messages that wait are not shared out to the
// slots: they stand in order of their futures, so it is enough that each names a slot that says it is an open future.
#![tactic(auto)]

mod messages;
mod part;
mod slots;
mod values;

pub use part::is_actor;
