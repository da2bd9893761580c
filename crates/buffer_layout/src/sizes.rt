// Sizes and alignments in bytes (OpenGL 4.6, section 7.6.2.2).
ghost use Rattle.std.specs.Prelude.{◌≡◌, ◌+◌, ◌<◌, ◌≤◌, min};
ghost use Rattle.spv_types.specs.Tree.{Tree, array};
ghost use Rattle.layout_rules.specs.declared.Kind.{Kind as KindOf};
ghost use Rattle.layout_rules.specs.Sizes.{aligned, whole_alignment as alignment_of_whole, size_of, stride_over, vector_alignment as alignment_of_vector};

use layout_rules::Kind;
use spv_module::Length;

/// More bytes than 32 bits can number. Sizes and ends are counted up to here.
pub const CAP: u64 = 4294967296;

/// The last byte that 32 bits can number.
pub const LAST: u64 = 4294967295;

/// The greatest alignment that there is, that of a vector of four.
pub const MOST_ALIGNED: u64 = 16;

/// The next multiple of an alignment, from this byte on.
#[tactic(auto, unfolding(layout_rules::specs::Sizes::aligned))]
pub fn next_aligned(byte: u64, alignment: u64) -> u64
    requires positive { 0 < alignment }
    requires small { alignment ≤ MOST_ALIGNED }
    requires within { byte ≤ CAP }
    ensures value { result ≡ aligned byte alignment }
    ensures above { byte ≤ result }
    ensures near { result < byte + alignment }
{
    byte.next_multiple_of(alignment)
}

/// The alignment of an array or a struct, from the greatest of its parts.
#[tactic(auto, using(crate::proofs::Bytes::aligned_to_most))]
pub fn whole_alignment(alignment: u64, kind: Kind) -> u64
    requires positive { 0 < alignment }
    requires small { alignment ≤ MOST_ALIGNED }
    ensures value { result ≡ alignment_of_whole kind alignment }
    ensures positive { 0 < result }
    ensures small { result ≤ MOST_ALIGNED }
{
    match kind {
        Kind::Std430 => alignment,
        Kind::Std140 => MOST_ALIGNED,
    }
}

/// A vector of three is aligned as one of four.
pub fn vector_alignment(size: u8) -> u64
    ensures value { result ≡ alignment_of_vector size }
    ensures positive { 0 < result }
    ensures small { result ≤ MOST_ALIGNED }
{
    if size == 2 { 8 } else { MOST_ALIGNED }
}

/// The end of what ends here, rounded up to the alignment of an array or a struct, or `CAP` where
/// that is greater.
pub fn whole_size(end: u64, alignment: u64, kind: Kind) -> u64
    requires positive { 0 < alignment }
    requires small { alignment ≤ MOST_ALIGNED }
    requires within { end ≤ CAP }
    ensures { result ≡ min CAP (aligned end (alignment_of_whole kind alignment)) }
{
    CAP.min(next_aligned(end, whole_alignment(alignment, kind)))
}

/// The size of an array from its stride, which is counted up to `CAP`, as is the size. One whose
/// length is a specialization constant counts 0.
#[tactic(auto, using(spv_types::proofs::Leaf::capped_product))]
pub fn array_size(stride: u64, length: Length) -> u64
    requires { stride ≤ CAP }
    ensures { (kind : KindOf) (t : Tree) → stride ≡ min CAP (stride_over kind t) → result ≡ min CAP (size_of kind (array t length)) }
{
    match length {
        Length::Fixed(length) => CAP.min(u64::from(length).saturating_mul(stride)),
        Length::Spec(_) => 0,
    }
}
