ghost use Rattle.std.specs.Prelude.{◌≡◌, ◌+◌, ◌<◌, ◌≤◌, ◌++◌, decimal, vec_capacity, vec_len};

/// The first number that isn't short.
pub(crate) const SHORT_BELOW: u64 = 10_000;

/// The number of digits of the longest short number.
pub(crate) const LONGEST_SHORT: usize = 4;

/// Pushes a short number in decimal. `bytes` has room for its digits.
#[tactic(auto, using(std::proofs::lemmas::Fmt::decimal_digit, std::proofs::lemmas::Fmt::decimal_step))]
pub(crate) fn push_short(bytes: &mut Vec<u8>, number: u64)
    requires short { number < 10000 }
    requires room { vec_len bytes.old + 4 ≤ vec_capacity bytes.old }
    ensures { bytes.new.items ≡ bytes.old.items ++ decimal number }
{
    if number < 10 {
        bytes.push_reserved(b'0' + number as u8);
    } else {
        push_below_thousand(bytes, number / 10);
        bytes.push_reserved(b'0' + (number % 10) as u8);
    }
}

#[tactic(auto, using(std::proofs::lemmas::Fmt::decimal_digit, std::proofs::lemmas::Fmt::decimal_step))]
fn push_below_thousand(bytes: &mut Vec<u8>, number: u64)
    requires short { number < 1000 }
    requires room { vec_len bytes.old + 3 ≤ vec_capacity bytes.old }
    ensures digits { bytes.new.items ≡ bytes.old.items ++ decimal number }
    ensures len { vec_len bytes.new ≤ vec_len bytes.old + 3 }
    ensures capacity { vec_capacity bytes.new ≡ vec_capacity bytes.old }
{
    if number < 10 {
        bytes.push_reserved(b'0' + number as u8);
    } else {
        push_below_hundred(bytes, number / 10);
        bytes.push_reserved(b'0' + (number % 10) as u8);
    }
}

#[tactic(auto, using(std::proofs::lemmas::Fmt::decimal_digit, std::proofs::lemmas::Fmt::decimal_step))]
fn push_below_hundred(bytes: &mut Vec<u8>, number: u64)
    requires short { number < 100 }
    requires room { vec_len bytes.old + 2 ≤ vec_capacity bytes.old }
    ensures digits { bytes.new.items ≡ bytes.old.items ++ decimal number }
    ensures len { vec_len bytes.new ≤ vec_len bytes.old + 2 }
    ensures capacity { vec_capacity bytes.new ≡ vec_capacity bytes.old }
{
    if number < 10 {
        bytes.push_reserved(b'0' + number as u8);
    } else {
        bytes.push_reserved(b'0' + (number / 10) as u8);
        bytes.push_reserved(b'0' + (number % 10) as u8);
    }
}
