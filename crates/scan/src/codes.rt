// The numbers of words.
ghost use Rattle.std.specs.Prelude.{◌≡◌, true, ◌^◌, ◌≤◌, ◌<◌, length};
ghost use Rattle.atlite.specs.Base.{all};
ghost use Rattle.atlite.specs.Lexicon.{in_word};
ghost use Rattle.layout.specs.Layout.{bytes_number};
ghost use Rattle.scan.specs.WordNumbers.{low_part, high_part};

// Bytes, at most eight, as one number, the first lowest.
#[tactic(auto, using(crate::specs::WordNumberLaws::laws))]
fn number(bytes: &[u8]) -> u64
    requires { length bytes.now ≤ 8 }
    ensures { (result ≡ bytes_number bytes.now) × (result < 256 ^ length bytes.now) }
{
    let mut n = 0;
    for i in (0..bytes.len()).rev() {
        n = n * 256 + u64::from(bytes[i]);
    }
    n
}

// A word's number below and above 2^64.
#[tactic(auto, using(crate::specs::WordNumberLaws::laws))]
pub fn low_part(word: &[u8]) -> u64
    ensures { result ≡ low_part word.now }
{
    if word.len() <= 8 {
        return number(word);
    }
    number(&word[..8])
}

#[tactic(auto, using(crate::specs::WordNumberLaws::laws))]
pub fn high_part(word: &[u8]) -> u32
    requires { (all in_word word.now ≡ true) × (length word.now ≤ 12) }
    ensures { result ≡ high_part word.now }
{
    if word.len() <= 8 {
        return 0;
    }
    number(&word[8..]) as u32
}
