// The listing of a state, behind other bytes.
ghost use Rattle.std.specs.Prelude.{◌+◌, ◌≤◌, length};
ghost use Rattle.atlite.specs.Program.{shown};
ghost use Rattle.transcript.specs.Output.{listing_room, Written};
ghost use Rattle.play.specs.Limits.{answers_room};
ghost use Rattle.play.specs.Starts.{of_words};
ghost use Rattle.play.specs.Listings.{headed};

// Lists a state behind the bytes `head`, or says what refuses that. The listing is written first: where it is refused nothing stands in `out`
// that was not there.
pub fn show_state(state: &[u32], head: &[u8], out: &mut [u8]) -> usize
    requires { (length head.now ≤ answers_room) × (length head.now + listing_room ≤ length out.old) }
    ensures { Written (shown (of_words (headed head.now) state.now)) out.old result out.new }
{
    let k = head.len();
    let e = k + transcript::LISTING;
    match engine::list(state, &mut out[k..e]) {
        Ok(n) => transcript::put_head(head, n, out),
        Err(c) => transcript::refuse(c, out),
    }
}
