// Runs of letters and digits, and given bytes, in a text.
ghost use Rattle.std.specs.Prelude.{◌≡◌, ◌≤◌, not, length};
ghost use Rattle.std.specs.List.{position};
ghost use Rattle.std.proofs.Math.Seq.{slice};
ghost use Rattle.atlite.specs.Base.{same_bytes};
ghost use Rattle.atlite.specs.Lexicon.{is_letter, is_digit, in_word};
ghost use Rattle.scan.specs.Runs.{Run, Starts};

#[tactic(auto, unfolding(atlite::specs::Lexicon::is_letter))]
pub fn is_letter(b: u8) -> bool
    ensures { result ≡ is_letter b }
{
    b'a' <= b && b <= b'z'
}

#[tactic(auto, unfolding(atlite::specs::Lexicon::is_digit))]
pub fn is_digit(b: u8) -> bool
    ensures { result ≡ is_digit b }
{
    b'0' <= b && b <= b'9'
}

#[tactic(auto, unfolding(atlite::specs::Lexicon::in_word))]
pub fn in_word(b: u8) -> bool
    ensures { result ≡ in_word b }
{
    is_letter(b) || is_digit(b)
}

// Where the first byte stands that is no letter and no digit.
fn outside(rest: &[u8]) -> Option<usize>
    ensures { result ≡ position (λ b. not (in_word b)) rest.now }
{
    rest.iter().position(|b| !in_word(*b))
}

// The end of the run of letters and digits at `at`.
#[tactic(auto, using(crate::specs::RunLaws::laws))]
pub fn run_end(text: &[u8], at: usize) -> usize
    requires { at ≤ length text.now }
    ensures { Run text.now at result }
{
    match outside(&text[at..]) {
        Some(n) => at + n,
        None => text.len(),
    }
}

// Whether the bytes `w` come next at `at`.
#[tactic(auto, using(crate::specs::RunLaws::laws))]
pub fn starts(text: &[u8], at: usize, w: &[u8]) -> bool
    requires { at ≤ length text.now }
    ensures { Starts text.now at w.now result }
{
    text[at..].starts_with(w)
}

// Whether the bytes from `at` to `end` are those of `w`.
#[tactic(auto, using(crate::specs::RunLaws::laws))]
pub fn named(text: &[u8], at: usize, end: usize, w: &[u8]) -> bool
    requires { (at ≤ end) × (end ≤ length text.now) }
    ensures { result ≡ same_bytes w.now (slice at end text.now) }
{
    w == &text[at..end]
}
