// Names, and those of them that structs have (GLSL 4.60, sections 3.6 and 3.7).
ghost use Rattle.std.specs.Prelude.{◌≡◌, ◌&&◌, not, OnOk};
ghost use Rattle.std.specs.List.{list_all};
ghost use Rattle.glsl_ast.specs.Tree.{Text};
ghost use Rattle.glsl_ast.specs.View.{name_text, decl_of};
ghost use Rattle.glsl_grammar.specs.Lex.{is_digit, is_word};
ghost use Rattle.text_check.specs.Words as words;
ghost use Rattle.text_check.specs.Words.{declares, declared_after};

use glsl_ast::{Decl, Name};
use spv_words::Memory;
use std::alloc::Global;
use std::collections::BTreeSet;
use word_search::is_among;

/// The names of the structs that are declared.
pub type Structs = BTreeSet<String>;

// The words that no name may be, in order.
const KEYWORDS: [&str; 38] = [
    "bool",
    "break",
    "buffer",
    "bvec2",
    "bvec3",
    "bvec4",
    "case",
    "coherent",
    "const",
    "continue",
    "default",
    "else",
    "false",
    "for",
    "if",
    "in",
    "inout",
    "int",
    "ivec2",
    "ivec3",
    "ivec4",
    "layout",
    "length",
    "readonly",
    "restrict",
    "return",
    "shared",
    "struct",
    "switch",
    "true",
    "uint",
    "uniform",
    "uvec2",
    "uvec3",
    "uvec4",
    "void",
    "volatile",
    "writeonly",
];

fn is_keyword(text: &str) -> bool
    ensures { result ≡ words.is_keyword text.now }
{
    is_among(&KEYWORDS, text)
}

/// Whether the text begins, and not with a digit.
#[tactic(auto, unfolding(glsl_grammar::specs::Lex::is_digit))]
fn begins_word(text: &[u8]) -> bool
    ensures { result ≡ words.begins_word text.now }
{
    match text {
        [] => false,
        [first, ..] => !first.is_ascii_digit(),
    }
}

/// Whether the byte is a letter, a digit or `_`.
#[inline]
#[tactic(auto, unfolding(glsl_grammar::specs::Lex::is_word))]
fn is_word_byte(byte: u8) -> bool
    ensures { result ≡ is_word byte }
{
    byte.is_ascii_digit() || byte.is_ascii_alphabetic() || byte == b'_'
}

/// Whether each byte is a letter, a digit or `_`.
fn are_word_bytes(text: &[u8]) -> bool
    ensures { result ≡ list_all is_word text.now }
{
    text.iter().all(|byte| is_word_byte(*byte))
}

/// Whether the byte is a letter or `_`.
#[inline]
#[tactic(auto, unfolding(glsl_grammar::specs::Lex::is_digit, glsl_grammar::specs::Lex::is_word))]
fn is_letter(byte: u8) -> bool
    ensures { result ≡ (is_word byte && not (is_digit byte)) }
{
    byte.is_ascii_alphabetic() || byte == b'_'
}

#[tactic(auto, unfolding(glsl_grammar::specs::Lex::is_digit))]
fn are_digits(text: &[u8]) -> bool
    ensures { result ≡ list_all is_digit text.now }
{
    text.iter().all(|byte| byte.is_ascii_digit())
}

/// Whether the text is a letter or `_`, and digits behind it, as in `v12` or `x`.
fn is_letter_and_digits(text: &[u8]) -> bool
    ensures { result ≡ words.is_letter_and_digits text.now }
{
    match text {
        [] => false,
        [first, digits @ ..] => is_letter(*first) && are_digits(digits),
    }
}

/// Whether the text is a word that begins with no digit, and none that the grammar has a meaning for.
#[inline(never)]
#[tactic(auto, unfolding(crate::specs::Words::is_name))]
fn is_free_word(text: &str) -> bool
    ensures { result ≡ words.is_name text.now }
{
    begins_word(text.as_bytes()) && are_word_bytes(text.as_bytes()) && !is_keyword(text)
}

/// Whether it is a name of the grammar. Most names are a letter and digits, which no keyword is.
#[inline]
pub fn is_name(name: &Name) -> bool
    ensures { result ≡ words.is_name (name_text name.now) }
{
    is_letter_and_digits(name.as_bytes()) || is_free_word(name.as_str())
}

/// Whether a struct has the name. Most texts have no struct.
#[inline]
pub fn is_declared(structs: &Structs, name: &Name) -> bool
    ensures { result ≡ declares structs.now (name_text name.now) }
{
    !structs.is_empty() && has_name(structs, name)
}

#[inline(never)]
fn has_name(structs: &Structs, name: &Name) -> bool
    ensures { result ≡ declares structs.now (name_text name.now) }
{
    structs.contains(name.as_str())
}

/// Whether it is a name of the grammar that no struct has.
#[inline(always)]
pub fn is_free(structs: &Structs, name: &Name) -> bool
    ensures { result ≡ words.is_free (declares structs.now) (name_text name.now) }
{
    is_name(name) && !is_declared(structs, name)
}

/// Adds the name of an item that is a struct.
pub fn declare(alloc: Global, structs: &mut Structs, item: &Decl) -> Result<(), Memory>
    ensures { OnOk result ((w : Text) → declares structs.new w ≡ declared_after (declares structs.old) (decl_of item.now) w) }
{
    if let Decl::Struct { name, .. } = item {
        structs.insert(String::from_str(alloc, name.as_str())?)?;
    }
    Ok(())
}
