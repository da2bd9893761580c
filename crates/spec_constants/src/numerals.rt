// Numbers and values in the words of a command line.
ghost use Rattle.std.specs.Prelude.{◌≡◌, ◌==◌, ◌≤◌, ◌-◌, ◌^◌, option_and_then, length};
ghost use Rattle.std.specs.List.{before_first, after_first, position, position_or_len};
ghost use Rattle.profile_rules.specs.Overrides.{number_up_to, decimal_up_to, hexadecimal as hexadecimal_number, above_zero, given_by, override_of};

use profile_rules::Given;

/// The number that digits of this base write, if it is at most `most`.
#[tactic(auto, using(crate::proofs::Digits::past))]
fn number(digits: &[u8], base: u32, most: u32) -> Option<u32>
    requires lower { 2 ≤ base }
    requires upper { base ≤ 16 }
    ensures { result ≡ number_up_to most base digits.now }
{
    let mut n: u32 = 0;
    for byte in digits {
        let digit = (*byte as char).to_digit(base)?;
        n = n.checked_mul(base)?.checked_add(digit)?;
    }
    if n <= most { Some(n) } else { None }
}

/// The decimal number without leading zeros that these bytes write, if it is at most `most`.
pub fn decimal(digits: &[u8], most: u32) -> Option<u32>
    ensures { result ≡ decimal_up_to most digits.now }
{
    if digits.is_empty() || (digits[0] == b'0' && digits.len() != 1) {
        None
    } else {
        number(digits, 10, most)
    }
}

/// One to eight hexadecimal digits.
fn hexadecimal(digits: &[u8]) -> Option<u32>
    ensures { result ≡ hexadecimal_number digits.now }
{
    if digits.is_empty() || digits.len() > 8 {
        None
    } else {
        number(digits, 16, u32::MAX)
    }
}

/// A number from 1 to 2^31 behind a minus.
fn negative(digits: &[u8]) -> Option<u32>
    ensures { result ≡ option_and_then above_zero (decimal_up_to (2 ^ 31) digits.now) }
{
    match decimal(digits, 1 << 31) {
        Some(0) | None => None,
        Some(n) => Some(n),
    }
}

/// The value that a word names.
#[tactic(auto, unfolding(profile_rules::specs::Overrides::given_by))]
fn given(word: &[u8]) -> Option<Given>
    ensures { result ≡ given_by word.now }
{
    match word {
        [b'-', digits @ ..] => negative(digits).map(Given::Negative),
        [b'0', b'x', digits @ ..] => hexadecimal(digits).map(Given::Hex),
        _ => decimal(word, u32::MAX).map(Given::Decimal),
    }
}

/// Where the first `=` stands.
fn first_equals_sign(word: &[u8]) -> Option<usize>
    ensures { result ≡ position (λ c. c == 61) word.now }
{
    word.iter().position(|c| *c == b'=')
}

/// The same, or the length.
#[tactic(auto, using(crate::proofs::Digits::place_rules))]
fn equals_sign(word: &[u8]) -> usize
    ensures place { result ≡ position_or_len (λ c. c == 61) word.now }
    ensures within { result ≤ length word.now }
{
    first_equals_sign(word).unwrap_or(word.len())
}

/// What stands before the first `=`.
fn before_equals_sign(word: &[u8]) -> &[u8]
    ensures { result.now ≡ before_first (λ c. c == 61) word.now }
{
    word.get(..equals_sign(word)).unwrap_or(&[])
}

/// What stands after it.
fn after_equals_sign(word: &[u8]) -> &[u8]
    ensures { result.now ≡ after_first (λ c. c == 61) word.now }
{
    word.get(equals_sign(word) + 1..).unwrap_or(&[])
}

/// The override that a word names.
#[tactic(auto, unfolding(profile_rules::specs::Overrides::override_of))]
pub fn override_in(word: &[u8]) -> Option<(u32, Given)>
    ensures { result ≡ override_of word.now }
{
    decimal(before_equals_sign(word), u32::MAX).zip(given(after_equals_sign(word)))
}
