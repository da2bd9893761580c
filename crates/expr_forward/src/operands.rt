// The words of instructions.
ghost use Rattle.std.specs.Prelude.{◌≡◌, drop};
ghost use Rattle.expr_forward.specs.Values.{value_words as value_words_of, literal_words as literal_words_of};

use spv_ops::Op;

/// The words behind the first.
pub(crate) fn after_one(words: &[u32]) -> &[u32]
    ensures { result.now ≡ drop 1 words.now }
{
    words.get(1..).unwrap_or(&[])
}

/// The words behind the first two.
pub(crate) fn after_two(words: &[u32]) -> &[u32]
    ensures { result.now ≡ drop 2 words.now }
{
    words.get(2..).unwrap_or(&[])
}

/// The words that are values, and not literals: an OpVectorShuffle has two.
pub(crate) fn value_words(op: Op, args: &[u32]) -> &[u32]
    ensures { result.now ≡ value_words_of op args.now }
{
    match op {
        Op::VectorShuffle => args.get(..2).unwrap_or(args),
        _ => args,
    }
}

/// The words that are literals.
pub(crate) fn literal_words(op: Op, args: &[u32]) -> &[u32]
    ensures { result.now ≡ literal_words_of op args.now }
{
    match op {
        Op::VectorShuffle => after_two(args),
        _ => &[],
    }
}
