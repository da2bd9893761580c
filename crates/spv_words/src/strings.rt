// The strings among words, read where they stand (SPIR-V 1.6, section 2.2.1, "Literal String").
ghost use Rattle.std.specs.Prelude.{◌≡◌, ◌==◌, ◌<◌, ◌≤◌, ◌+◌, ◌^◌, ℕ, position, drop, length, take, slice_index, IfSome, IfNone as OnNone, MatchBool};
ghost use Rattle.std.specs.Int.{to_le_bytes as bytes_of, w32};
ghost use Rattle.std.specs.Str.{IsUtf8};
ghost use Rattle.spv_words.specs.Words.{octets_of};
ghost use Rattle.spv_words.specs.Breaks.{IsText, HasNoText};

fn word_at(words: &[u32], i: usize) -> u32
    ensures { result ≡ slice_index words.now i }
{
    words.get(i).copied().unwrap_or(0)
}

fn octet_of(word: u32, k: usize) -> u8
    requires { k < 4 }
    ensures { result ≡ slice_index (bytes_of w32 word) k }
{
    word.to_le_bytes()[k]
}

/// Octet k of the words, the lowest-order first, and 0 behind the last.
#[inline(always)]
#[tactic(auto, using(crate::proofs::Characters::octet_is))]
fn octet(words: &[u32], k: usize) -> u8
    ensures { result ≡ slice_index (octets_of words.now) k }
{
    octet_of(word_at(words, k / 4), k % 4)
}

/// The place of the first zero octet.
#[tactic(auto, using(crate::proofs::Characters::zero_start, crate::proofs::Characters::zero_here, crate::proofs::Characters::zero_later, crate::proofs::Characters::zero_nowhere, crate::proofs::Characters::length_octets))]
fn first_zero_among(words: &[u32]) -> Option<usize>
    ensures place { result ≡ position (λ b. b == 0) (octets_of words.now) }
    ensures within { IfSome result (λ n. n < length (octets_of words.now)) }
    ensures small { IfSome result (λ n. n < 2 ^ 63) }
{
    for k in 0..4 * words.len() {
        if octet(words, k) == 0 {
            return Some(k);
        }
    }
    None
}

/// How many octets at the front are whole characters.
fn whole_characters(octets: &[u8]) -> usize
    requires { 0 < length octets.now }
    ensures within { result ≤ length octets.now }
    ensures whole { IsUtf8 (take result octets.now) }
    ensures none { result ≡ 0 → (n : ℕ) → 0 < n → IsUtf8 (take n octets.now) → ⊥ }
{
    match str::from_utf8(octets) {
        Ok(_) => octets.len(),
        Err(error) => error.valid_up_to(),
    }
}

/// The same of the octets from one place on and below another, as far as the first four of them
/// tell: there is none exactly where no character begins there, since one has at most four.
fn characters_at(words: &[u32], at: usize, end: usize) -> usize
    requires more { at < end }
    requires there { end ≤ length (octets_of words.now) }
    requires small { end < 2 ^ 63 }
    ensures within { at + result ≤ end }
    ensures whole { IsUtf8 (take result (drop at (take end (octets_of words.now)))) }
    ensures none { result ≡ 0 → IsUtf8 (drop at (take end (octets_of words.now))) → ⊥ }
{
    let four = [
        octet(words, at),
        octet(words, at + 1),
        octet(words, at + 2),
        octet(words, at + 3),
    ];
    whole_characters(&four[..(end - at).min(4)])
}

/// Whether the octets before this place are UTF-8.
fn is_utf8(words: &[u32], end: usize) -> bool
    requires there { end ≤ length (octets_of words.now) }
    requires small { end < 2 ^ 63 }
    ensures { MatchBool result (IsUtf8 (take end (octets_of words.now))) (IsUtf8 (take end (octets_of words.now)) → ⊥) }
{
    let mut at = 0;
    while at < end {
        let more = characters_at(words, at, end);
        if more == 0 {
            return false;
        }
        at += more;
    }
    true
}

/// The number of octets of the text with which the words begin, up to a zero octet.
pub fn text_len(words: &[u32]) -> Option<usize>
    ensures some { IfSome result (IsText (octets_of words.now)) }
    ensures none { OnNone result (HasNoText (octets_of words.now)) }
    ensures len { IfSome result (λ n. n < length (octets_of words.now)) }
{
    match first_zero_among(words) {
        None => None,
        Some(len) => { if is_utf8(words, len) { Some(len) } else { None } }
    }
}
