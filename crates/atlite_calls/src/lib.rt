// The engine's calls for callers that are not Rattle, under C's conventions. A slice is two arguments there, a pointer and a length.
//
// Each function returns a number: 0 where the call was done, else document 01's number of the cause. Lengths, counts and the kind of a
// move go to places that the caller lends. None asks anything of the words and bytes that it is lent. Crate `call_numbers` has the number
// of each answer; here each call is made and its answer handed over.
#![tactic(auto)]

ghost use Rattle.std.specs.Prelude.{◌≡◌};
ghost use Rattle.promises.specs.Meaning.{read_call, print_call, load_call, move_call, run_call, list_call};
ghost use Rattle.promises.specs.CallNumbers.{cause, place, itself, kind_of, other_of, moves_of, refusals_of};

use atlite::ActorNo;

// Reads a script's text into the first 1,280 words of `table`: 0, or a cause from 1 to 6.
#[unsafe(no_mangle)]
#[tactic(auto, using(crate::specs::Numbers::laws))]
pub extern "C" fn atlite_read(text: &[u8], table: &mut [u32]) -> u32
    ensures value { result ≡ cause (read_call text.now table.old).result }
    ensures table_after { table.new ≡ (read_call text.now table.old).buffer }
{
    let answer = engine::read(text, table);
    call_numbers::tabled(answer)
}

// Writes the text of the table in the first 1,280 words of `table` in front of `text`, and its length to `bytes`: 0, or a cause, 6 or 7.
#[unsafe(no_mangle)]
#[tactic(auto, using(crate::specs::Numbers::laws))]
pub extern "C" fn atlite_print(table: &[u32], text: &mut [u8], bytes: &mut usize) -> u32
    ensures value { result ≡ cause (print_call table.now text.old).result }
    ensures text_after { text.new ≡ (print_call table.now text.old).buffer }
    ensures bytes_after { bytes.new ≡ place itself bytes.old (print_call table.now text.old).result }
{
    let answer = engine::print(table, text);
    call_numbers::printed(answer, bytes)
}

// One move of the actor `actor` in the state in the first 16,384 words of `state`; its kind to `kind`, and to `other` the actor that it
// sent to or created: 0, or a cause from 6 to 16.
#[unsafe(no_mangle)]
#[tactic(auto, using(crate::specs::Numbers::laws))]
pub extern "C" fn atlite_move(state: &mut [u32], actor: u8, kind: &mut u32, other: &mut u32) -> u32
    ensures value { result ≡ cause (move_call state.old actor).result }
    ensures state_after { state.new ≡ (move_call state.old actor).buffer }
    ensures kind_after { kind.new ≡ place kind_of kind.old (move_call state.old actor).result }
    ensures other_after { other.new ≡ place other_of other.old (move_call state.old actor).result }
{
    let answer = engine::move_actor(state, ActorNo(actor));
    call_numbers::moved(answer, kind, other)
}

// Loads the table in the first 1,280 words of `table` into the first 16,384 of `state`: 0, or a cause, 6, 7 or 16.
#[unsafe(no_mangle)]
#[tactic(auto, using(crate::specs::Numbers::laws))]
pub extern "C" fn atlite_load(table: &[u32], state: &mut [u32]) -> u32
    ensures value { result ≡ cause (load_call table.now state.old).result }
    ensures state_after { state.new ≡ (load_call table.now state.old).buffer }
{
    let answer = engine::load(table, state);
    call_numbers::loaded(answer)
}

// One move for each byte of `entries`, by the actor that it names, in the state in the first 16,384 words of `state`; how many were made
// to `moves` and how many refused to `refusals`: 0, or a cause, 6 or 7.
#[unsafe(no_mangle)]
#[tactic(auto, using(crate::specs::Numbers::laws))]
pub extern "C" fn atlite_run(
    state: &mut [u32],
    entries: &[u8],
    moves: &mut usize,
    refusals: &mut usize,
) -> u32
    ensures value { result ≡ cause (run_call state.old entries.now).result }
    ensures state_after { state.new ≡ (run_call state.old entries.now).buffer }
    ensures moves_after { moves.new ≡ place moves_of moves.old (run_call state.old entries.now).result }
    ensures refusals_after { refusals.new ≡ place refusals_of refusals.old (run_call state.old entries.now).result }
{
    let answer = engine::run(state, entries);
    call_numbers::ran(answer, moves, refusals)
}

// Writes the listing of the state in the first 16,384 words of `state` in front of `text`, and its length to `bytes`: 0, or a cause, 6
// or 7.
#[unsafe(no_mangle)]
#[tactic(auto, using(crate::specs::Numbers::laws))]
pub extern "C" fn atlite_list(state: &[u32], text: &mut [u8], bytes: &mut usize) -> u32
    ensures value { result ≡ cause (list_call state.now text.old).result }
    ensures text_after { text.new ≡ (list_call state.now text.old).buffer }
    ensures bytes_after { bytes.new ≡ place itself bytes.old (list_call state.now text.old).result }
{
    let answer = engine::list(state, text);
    call_numbers::listed(answer, bytes)
}
