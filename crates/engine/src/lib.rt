// The calls of the engine, on words and bytes that the caller lends. Each has one meaning for whatever stands there (`Meaning` of crate `promises`),
// and no condition for a caller to meet.
#![tactic(auto)]

mod moves;
mod tables;

pub use moves::{move_actor, run};
pub use script::{print, read};
pub use state::list;
pub use tables::load;
