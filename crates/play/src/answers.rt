// Calls made one after another, and the line of their answers.
ghost use Rattle.std.specs.Prelude.{◌≡◌, ◌≤◌, length};
ghost use Rattle.input_line.specs.Limits.{longest};
ghost use Rattle.play.specs.Limits.{answers_room};
ghost use Rattle.play.specs.Starts.{Holds};
ghost use Rattle.play.specs.Calls.{CallMade, Ready, Calling, Lined};

use atlite::ActorNo;
use showing::Writer;

// Makes one call, with `i` made before it, and puts its answer.
fn make_call(state: &mut [u32], actor: u8, i: usize, text: &mut Writer<'_>)
    ensures { CallMade state.old actor i text.old state.new text.new }
{
    let answer = engine::move_actor(state, ActorNo(actor));
    transcript::put_space(i, text);
    transcript::put_answer(answer, text);
}

// Makes the calls of `entries` one after another, and puts their answers into `text`, which has none yet.
fn answer_calls(state: &mut [u32], entries: &[u8], text: &mut Writer<'_>)
    requires { Ready state.old entries.now text.old }
    ensures { Calling state.old entries.now text.old.out.ghost_name (length entries.now) state.new text.new }
{
    for (i, actor) in entries.iter().enumerate() {
        make_call(state, *actor, i, text);
    }
}

// Makes the calls of `entries`, and puts the line of their answers in front of `out`. A refused call has its cause for an answer and leaves
// the state alone, so the calls behind it are made all the same.
pub fn make_calls(state: &mut [u32], entries: &[u8], out: &mut [u8]) -> usize
    requires { Holds state.old × (length entries.now ≤ longest) × (length out.old ≡ answers_room) }
    ensures { Lined state.old entries.now state.new result out.new }
{
    let mut text = Writer::new(out);
    answer_calls(state, entries, &mut text);
    text.put(b'\n');
    text.len()
}
