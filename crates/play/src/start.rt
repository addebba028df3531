// The state that a script starts in.
ghost use Rattle.std.specs.Prelude.{◌≤◌, length};
ghost use Rattle.layout.specs.Numbers.{state_words};
ghost use Rattle.play.specs.Starts.{Starts};

use atlite::Cause;
use layout::TABLE;

// The words of a state.
pub const STATE: usize = layout::STATE;

// Reads a script and loads it into `state`.
pub fn start(script: &[u8], state: &mut [u32]) -> Result<(), Cause>
    requires { state_words ≤ length state.old }
    ensures { Starts script.now result state.new }
{
    let mut table = [0u32; TABLE];
    engine::read(script, &mut table)?;
    engine::load(&table, state)
}
