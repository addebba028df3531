// Numbers in the records that test programs go through: so many digits, of which one that is none counts as 0.
ghost use Rattle.std.specs.Prelude.{◌≡◌, ◌+◌, ◌≤◌, length};
ghost use Rattle.input.specs.Digits.{digit_of, two_at, five_at};

// The digit `b`.
#[tactic(auto, using(crate::specs::Digits::laws))]
pub fn digit(b: u8) -> usize
    ensures value { result ≡ digit_of b }
    ensures upper_bound { result ≤ 9 }
{
    if b < b'0' {
        return 0;
    }
    if b'9' < b {
        return 0;
    }
    (b - b'0') as usize
}

// The number of two digits at `at`. Two and five are no one function of a length, since each has the bound that its callers count with.
#[tactic(auto, unfolding(crate::specs::Digits::two_at))]
pub fn two(bytes: &[u8], at: usize) -> usize
    requires { at + 2 ≤ length bytes.now }
    ensures value { result ≡ two_at bytes.now at }
    ensures upper_bound { result ≤ 99 }
{
    digit(bytes[at]) * 10 + digit(bytes[at + 1])
}

// The number of five digits at `at`.
#[tactic(auto, unfolding(crate::specs::Digits::five_at))]
pub fn five(bytes: &[u8], at: usize) -> usize
    requires { at + 5 ≤ length bytes.now }
    ensures value { result ≡ five_at bytes.now at }
    ensures upper_bound { result ≤ 99999 }
{
    let high = two(bytes, at) * 1000;
    let low = two(bytes, at + 2) * 10 + digit(bytes[at + 4]);
    high + low
}
