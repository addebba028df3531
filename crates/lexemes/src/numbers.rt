// Numbers: their digits, from the first to the last.
ghost use Rattle.std.specs.Prelude.{◌≤◌, length};
ghost use Rattle.lexemes.specs.Atoms.{Digits, NumberIs};

// The greatest number of a script.
const TOP: usize = layout::MOST as usize;

// The number of at most eight digits.
#[tactic(auto, using(crate::specs::NumberLaws::laws))]
fn digits(word: &[u8]) -> Option<usize>
    requires { length word.now ≤ 8 }
    ensures { Digits word.now result }
{
    let mut n = 0;
    for b in word {
        if !scan::is_digit(*b) {
            return None;
        }
        n = n * 10 + usize::from(*b - b'0');
    }
    Some(n)
}

// The number that a word is: no zero before other digits, and in range.
#[tactic(auto, using(crate::specs::NumberLaws::laws))]
pub fn decimal(word: &[u8]) -> Option<usize>
    ensures { NumberIs word.now result }
{
    if word.is_empty() || 8 < word.len() {
        return None;
    }
    if 1 < word.len() && word[0] == b'0' {
        return None;
    }
    let n = digits(word)?;
    if n <= TOP { Some(n) } else { None }
}
