// The decorations Offset and ArrayStride, and how they compare with a layout's numbers.
ghost use Rattle.std.specs.Prelude.{◌≡◌, ℕ, min};
ghost use Rattle.spv_ops.specs.Enumerants.{decoration_number};
ghost use Rattle.spv_ops.specs.declared.Decoration.TheVariants as decoration;
ghost use Rattle.spv_decor.specs.Rows.{value_of};
ghost use Rattle.layout_rules.specs.Rules.{is_not as is_not_number, is_other as is_other_number, offset_of as offset_in};

use crate::sizes::CAP;
use spv_decor::Decor;
use spv_module::Id;
use spv_ops::Decoration;

/// The Offset of a struct's member.
pub fn offset_of(decor: &Decor, id: u32, member: usize) -> Option<u32>
    ensures { result ≡ offset_in decor.now id member }
{
    match u32::try_from(member) {
        Ok(member) => decor.member_value(Id(id), member, Decoration::Offset.number()),
        Err(_) => None,
    }
}

/// The ArrayStride of an array.
pub fn stride_of(decor: &Decor, id: u32) -> Option<u32>
    ensures { result ≡ value_of decor.now id (decoration_number decoration.ArrayStride) }
{
    decor.value(Id(id), Decoration::ArrayStride.number())
}

/// A literal is missing, or is another number than that of which this is the least with `CAP`.
pub fn is_not(literal: Option<u32>, capped: u64) -> bool
    ensures { (n : ℕ) → min CAP capped ≡ min CAP n → result ≡ is_not_number literal n }
{
    match literal {
        Some(_) => is_other(literal, capped),
        None => true,
    }
}

/// A literal is there, and is another number.
#[tactic(auto, using(crate::proofs::Steps::capped_test))]
pub fn is_other(literal: Option<u32>, capped: u64) -> bool
    ensures { (n : ℕ) → min CAP capped ≡ min CAP n → result ≡ is_other_number literal n }
{
    match literal {
        Some(literal) => u64::from(literal) != capped,
        None => false,
    }
}
