// The base of a claim's name.
ghost use Rattle.std.specs.Prelude.{◌≡◌, ◌++◌, false, map, option_map, IfOk, string_bytes};
ghost use Rattle.std.specs.Fmt.{decimal};
ghost use Rattle.glsl_ast.specs.View.{name_text};
ghost use Rattle.name_alloc.specs.Base.{worded as as_word, single as as_single, ends_low as as_ends_low, trimmed as as_trimmed, cleaned as as_cleaned, given_base, guarded as as_guarded, is_barred as barred, base_of, IsLetter};

use crate::claims::Key;
use crate::reserved::{begins_reserved, is_reserved};
use glsl_ast::Name;
use itoa::Buffer;
use spv_words::Memory;
use std::alloc::{AllocError, Global};

/// As many bytes of a given name are kept.
const KEPT: usize = 64;

/// The byte, or `_` where it is no letter, digit or `_`.
fn worded(byte: u8) -> u8
    ensures { result ≡ as_word byte }
{
    if byte.is_ascii_alphanumeric() {
        byte
    } else {
        b'_'
    }
}

/// The text in letters, digits and `_`, of which none stands behind another.
fn single(alloc: Global, given: &[u8]) -> Result<Vec<u8>, AllocError>
    ensures { IfOk result (λ kept. kept.items ≡ as_single false (map as_word given.now)) }
{
    let mut kept = Vec::with_capacity(alloc, given.len().min(KEPT))?;
    let mut after = false;
    for byte in given {
        let word = worded(*byte);
        if !(after && word == b'_') {
            kept.push(word)?;
        }
        after = word == b'_';
    }
    Ok(kept)
}

/// Whether the last byte is `_`.
fn ends_low(text: &[u8]) -> bool
    ensures { result ≡ as_ends_low text.now }
{
    match text.last() {
        None => false,
        Some(byte) => *byte == b'_',
    }
}

/// The text without a `_` at its end.
fn trimmed(mut text: Vec<u8>) -> Vec<u8>
    ensures { result.items ≡ as_trimmed text.items }
{
    if ends_low(text.as_slice()) {
        text.pop();
    }
    text
}

/// The text as a part of a name: one `_` for each run of bytes that are no letter or digit, 64 bytes,
/// and no `_` at the end.
#[tactic(auto, unfolding(crate::specs::Base::cleaned))]
fn cleaned(alloc: Global, given: &[u8]) -> Result<String, AllocError>
    ensures { IfOk result (λ text. string_bytes text ≡ as_cleaned given.now) }
{
    let mut kept = single(alloc, given)?;
    kept.truncate(KEPT);
    Ok(String::from_utf8(trimmed(kept)).unwrap())
}

/// Whether the text is no name: it begins with a digit or with a reserved prefix, or is a reserved
/// word.
fn is_barred(text: &str) -> bool
    ensures { result ≡ barred text.now }
{
    let digit = match text.as_bytes().first() {
        None => false,
        Some(byte) => byte.is_ascii_digit(),
    };
    digit || begins_reserved(text) || is_reserved(text)
}

/// The text, with `n_` before it where it is no name.
fn guarded(alloc: Global, text: String) -> Result<Name, Memory>
    ensures { IfOk result (λ base. name_text base ≡ as_guarded (string_bytes text)) }
{
    if is_barred(text.as_str()) {
        return Ok(Name::joined(alloc, "n_", text.as_str())?);
    }
    Ok(Name::from_string(text)?)
}

/// The word with the number behind it.
#[inline(always)]
fn worded_number(alloc: Global, word: &str, number: u32) -> Result<Name, Memory>
    ensures { IfOk result (λ name. name_text name ≡ word.now ++ decimal number) }
{
    let mut digits = Buffer::new();
    Ok(Name::joined(alloc, word, digits.format(number))?)
}

/// The given name cleaned, or the letter with the number where nothing is left of it. No word begins with a letter and a
/// digit.
#[inline(always)]
fn named(alloc: Global, given: &Option<Vec<u8>>, letter: &str, number: u32) -> Result<Name, Memory>
    requires { IsLetter letter.now }
    ensures { IfOk result (λ base. name_text base ≡ given_base (option_map (λ v. v.items) given.now) letter.now number) }
{
    let text = match given {
        None => String::new(alloc),
        Some(bytes) => cleaned(alloc, bytes.as_slice())?,
    };
    if text.as_str().is_empty() {
        return Ok(worded_number(alloc, letter, number)?);
    }
    Ok(guarded(alloc, text)?)
}

/// The base of a key: the name that the module gives to an id or a member, and a word for what has
/// none.
#[tactic(auto, unfolding(crate::specs::Base::base_of))]
pub fn base(alloc: Global, key: Key, given: &Option<Vec<u8>>) -> Result<Name, Memory>
    ensures { IfOk result (λ base. name_text base ≡ base_of key (option_map (λ v. v.items) given.now)) }
{
    match key {
        Key::Main => Ok(Name::from_str(alloc, "main")?),
        Key::Id(id) => named(alloc, given, "v", id.0),
        Key::Block(_, block) => named(alloc, given, "v", block.0),
        Key::Member(_, member) => named(alloc, given, "m", member),
        Key::Again(_) => Ok(Name::from_str(alloc, "again")?),
        Key::Leave(_) => Ok(Name::from_str(alloc, "leave")?),
        Key::Fell(_) => Ok(Name::from_str(alloc, "fell")?),
        Key::Captured(_, _) => Ok(Name::from_str(alloc, "at")?),
        Key::Spare(_, _, _) => Ok(Name::from_str(alloc, "spare")?),
    }
}
