// Reserved words, and the words that are a script's own.
ghost use Rattle.std.specs.Prelude.{◌≡◌, ◌≤◌, eqb, length};
ghost use Rattle.std.proofs.Math.Seq.{slice};
ghost use Rattle.atlite.specs.Lexicon.{is_word};
ghost use Rattle.scan.specs.Runs.{Run, Sized, others, Kinded};

use crate::bytes::{is_letter, named};
use crate::kinds;

// The kinds of the reserved words, by length: first those of three letters. A new word is a line. A kind stays the number that a head word and
// the table of kinds take it as: an enum would be turned into it at each use.
#[tactic(auto, using(crate::specs::Keywords::laws))]
fn three(text: &[u8], at: usize, end: usize) -> Option<u8>
    requires { Sized (eqb 3) text.now at end }
    ensures { Kinded (slice at end text.now) result }
{
    if named(text, at, end, b"get") {
        return Some(kinds::GET);
    }
    if named(text, at, end, b"set") {
        return Some(kinds::SET);
    }
    if named(text, at, end, b"ask") {
        return Some(kinds::ASK);
    }
    if named(text, at, end, b"let") {
        return Some(kinds::LET);
    }
    if named(text, at, end, b"seq") {
        return Some(kinds::SEQ);
    }
    if named(text, at, end, b"def") {
        return Some(kinds::DEF);
    }
    None
}

#[tactic(auto, using(crate::specs::Keywords::laws))]
fn four(text: &[u8], at: usize, end: usize) -> Option<u8>
    requires { Sized (eqb 4) text.now at end }
    ensures { Kinded (slice at end text.now) result }
{
    if named(text, at, end, b"plus") {
        return Some(kinds::PLUS);
    }
    if named(text, at, end, b"call") {
        return Some(kinds::CALL);
    }
    if named(text, at, end, b"send") {
        return Some(kinds::SEND);
    }
    if named(text, at, end, b"when") {
        return Some(kinds::WHEN);
    }
    if named(text, at, end, b"null") {
        return Some(kinds::NULL);
    }
    if named(text, at, end, b"this") {
        return Some(kinds::THIS);
    }
    if named(text, at, end, b"same") {
        return Some(kinds::SAME);
    }
    None
}

#[tactic(auto, using(crate::specs::Keywords::laws))]
fn seven(text: &[u8], at: usize, end: usize) -> Option<u8>
    requires { Sized (eqb 7) text.now at end }
    ensures { Kinded (slice at end text.now) result }
{
    if named(text, at, end, b"percent") {
        return Some(kinds::PERCENT);
    }
    if named(text, at, end, b"resolve") {
        return Some(kinds::RESOLVE);
    }
    if named(text, at, end, b"isolate") {
        return Some(kinds::ISOLATE);
    }
    None
}

// Those of other lengths.
#[tactic(auto, using(crate::specs::Keywords::laws))]
fn other(text: &[u8], at: usize, end: usize) -> Option<u8>
    requires { Sized others text.now at end }
    ensures { Kinded (slice at end text.now) result }
{
    if named(text, at, end, b"future") {
        return Some(kinds::FUTURE);
    }
    if named(text, at, end, b"fn") {
        return Some(kinds::FN);
    }
    if named(text, at, end, b"object") {
        return Some(kinds::OBJECT);
    }
    if named(text, at, end, b"actor") {
        return Some(kinds::ACTOR);
    }
    if named(text, at, end, b"field") {
        return Some(kinds::FIELD);
    }
    if named(text, at, end, b"method") {
        return Some(kinds::METHOD);
    }
    if named(text, at, end, b"if") {
        return Some(kinds::IF);
    }
    None
}

// The kind of the reserved word from `at` to `end`.
#[tactic(auto, using(crate::specs::Keywords::laws))]
pub fn keyword(text: &[u8], at: usize, end: usize) -> Option<u8>
    requires { (at ≤ end) × (end ≤ length text.now) }
    ensures { Kinded (slice at end text.now) result }
{
    if end - at == 3 {
        return three(text, at, end);
    }
    if end - at == 4 {
        return four(text, at, end);
    }
    if end - at == 7 {
        return seven(text, at, end);
    }
    other(text, at, end)
}

// Whether a run is a word of a script's own.
#[tactic(auto, using(crate::specs::Keywords::laws))]
pub fn is_word(text: &[u8], at: usize, end: usize) -> bool
    requires { Run text.now at end }
    ensures { result ≡ is_word (slice at end text.now) }
{
    if end == at || 12 < end - at || !is_letter(text[at]) {
        return false;
    }
    keyword(text, at, end).is_none()
}
