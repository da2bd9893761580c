// Fields of bits of a word, and words between bounds.
ghost use Rattle.std.specs.Prelude.{◌≡◌, ◌≤◌, ◌<◌, ◌+◌, ◌/◌, ◌%◌, ◌^◌, nat_le};
ghost use Rattle.op_semantics.specs.Word.{bit_field_insert as bit_field_insert_of, clamp_word as clamp_word_of, field as field_of, sign_extended as sign_extended_of};
ghost use Rattle.value_ops.specs.Fields.{bit_field as bit_field_of, with_field as with_field_of};

use op_semantics::Clamp;

/// How a bit field is read.
#[derive(Clone, Copy)]
pub enum Sign {
    Signed,
    Unsigned,
}

/// A word between two bounds, of which the upper one wins.
pub fn clamp_word(op: Clamp, a: u32, low: u32, high: u32) -> u32
    ensures { result ≡ clamp_word_of op a low high }
{
    match op {
        Clamp::UClamp => a.max(low).min(high),
        Clamp::SClamp => a
            .cast_signed()
            .max(low.cast_signed())
            .min(high.cast_signed())
            .cast_unsigned(),
    }
}

/// Whether a field lies within a word.
fn is_within(offset: u32, count: u32) -> bool
    ensures { result ≡ nat_le (offset + count) 32 }
{
    offset <= 32 && count <= 32 - offset
}

/// The lowest bits of a word.
fn low_bits(word: u32, count: u32) -> u32
    requires { count ≤ 32 }
    ensures { result ≡ word % 2 ^ count }
{
    (u64::from(word) % (1u64 << count)) as u32
}

/// The bits of a word from one on.
fn high_bits(word: u32, offset: u32) -> u32
    requires { offset ≤ 32 }
    ensures { result ≡ word / 2 ^ offset }
{
    (u64::from(word) >> offset) as u32
}

/// The field of so many bits from the offset on.
fn field(base: u32, offset: u32, count: u32) -> u32
    requires { offset + count ≤ 32 }
    ensures { result ≡ field_of base offset count }
{
    low_bits(high_bits(base, offset), count)
}

/// A field of so many bits, read with a sign.
fn sign_extended(count: u32, a: u32) -> u32
    requires count { count ≤ 32 }
    requires field { a < 2 ^ count }
    ensures { result ≡ sign_extended_of count a }
{
    if u64::from(a) < 1u64 << count.saturating_sub(1) {
        a
    } else {
        (u64::from(a) + ((1u64 << 32) - (1u64 << count))) as u32
    }
}

/// The base with the field taken from the lowest bits of another word.
fn with_field(offset: u32, count: u32, base: u32, insert: u32) -> u32
    requires { offset + count ≤ 32 }
    ensures { result ≡ with_field_of offset count base insert }
{
    let low = u64::from(low_bits(base, offset));
    let field = u64::from(low_bits(insert, count)) << offset;
    let high = u64::from(high_bits(base, offset + count)) << (offset + count);
    (low + field + high) as u32
}

/// A bit field, where it lies within the word.
#[tactic(auto, using(crate::proofs::Powers::field_below))]
pub fn bit_field(sign: Sign, offset: u32, count: u32, base: u32) -> Option<u32>
    ensures { result ≡ bit_field_of sign offset count base }
{
    if !is_within(offset, count) {
        return None;
    }
    let field = field(base, offset, count);
    match sign {
        Sign::Signed => Some(sign_extended(count, field)),
        Sign::Unsigned => Some(field),
    }
}

/// The base with another bit field, where it lies within the word.
pub fn bit_field_insert(offset: u32, count: u32, base: u32, insert: u32) -> Option<u32>
    ensures { result ≡ bit_field_insert_of offset count base insert }
{
    if is_within(offset, count) {
        Some(with_field(offset, count, base, insert))
    } else {
        None
    }
}
