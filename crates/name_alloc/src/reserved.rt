// The words and prefixes that no name may be or begin with: the keywords and the reserved names of
// GLSL (GLSL 4.60, sections 3.6 and 3.7), and the built-in names that a text uses.
ghost use Rattle.std.specs.Prelude.{◌≡◌};
ghost use Rattle.name_alloc.specs.Reserved.{is_word as word_is_reserved, has_prefix};

use word_search::{begins_any, is_among};

const PREFIXES: [&str; 25] = [
    "gl_",
    "image",
    "iimage",
    "uimage",
    "sampler",
    "isampler",
    "usampler",
    "texture",
    "itexture",
    "utexture",
    "subpass",
    "isubpass",
    "usubpass",
    "vec",
    "ivec",
    "uvec",
    "bvec",
    "dvec",
    "hvec",
    "fvec",
    "mat",
    "dmat",
    "atomic",
    "bitfield",
    "memoryBarrier",
];

// In order.
const WORDS: [&str; 93] = [
    "active",
    "all",
    "any",
    "asm",
    "attribute",
    "barrier",
    "bitCount",
    "bool",
    "break",
    "buffer",
    "case",
    "cast",
    "centroid",
    "class",
    "coherent",
    "common",
    "const",
    "continue",
    "default",
    "discard",
    "do",
    "double",
    "else",
    "enum",
    "extern",
    "external",
    "false",
    "filter",
    "findLSB",
    "findMSB",
    "fixed",
    "flat",
    "float",
    "for",
    "gl",
    "goto",
    "half",
    "highp",
    "if",
    "in",
    "inline",
    "inout",
    "input",
    "int",
    "interface",
    "invariant",
    "layout",
    "length",
    "long",
    "lowp",
    "main",
    "max",
    "mediump",
    "min",
    "namespace",
    "noinline",
    "noperspective",
    "out",
    "output",
    "partition",
    "patch",
    "precise",
    "precision",
    "public",
    "readonly",
    "resource",
    "restrict",
    "return",
    "sample",
    "shared",
    "short",
    "sign",
    "sizeof",
    "smooth",
    "static",
    "struct",
    "subroutine",
    "superp",
    "switch",
    "template",
    "this",
    "true",
    "typedef",
    "uint",
    "uniform",
    "union",
    "unsigned",
    "using",
    "varying",
    "void",
    "volatile",
    "while",
    "writeonly",
];

/// Whether the text begins with a reserved prefix.
#[tactic(auto, unfolding(crate::specs::Reserved::has_prefix))]
pub fn begins_reserved(text: &str) -> bool
    ensures { result ≡ has_prefix text.now }
{
    begins_any(&PREFIXES, text)
}

/// Whether the text is a reserved word.
#[tactic(auto, unfolding(crate::specs::Reserved::is_word))]
pub fn is_reserved(text: &str) -> bool
    ensures { result ≡ word_is_reserved text.now }
{
    is_among(&WORDS, text)
}
