// Operands of an instruction, by their places.
ghost use Rattle.std.specs.Prelude.{◌≡◌, option_map};
ghost use Rattle.module_semantics.specs.Operands.{arg};
ghost use Rattle.run_operands.specs.Targets.{target_of};
ghost use Rattle.run_operands.specs.Looks.{value_by, word_by, pointer_by};
ghost use Rattle.run_acts.specs.About.{value_of, ids_of};

use memory_places::MemoryMap;
use run_operands::{pointer, value, word};
use run_state::{Ids, Root};
use spv_module::{Inst, Value};

/// Where operand k leads.
pub fn pointer_at<'s>(
    map: &'s MemoryMap<'_>,
    ids: &'s Ids,
    inst: &Inst,
    k: usize,
) -> Option<(Root, &'s [u32])>
    ensures { option_map target_of result ≡ pointer_by map.now (ids_of ids.now) (arg inst.now k) }
{
    pointer(map, ids, inst.operand(k))
}

/// The value of operand k.
pub fn value_at<'s>(
    map: &'s MemoryMap<'_>,
    ids: &'s Ids,
    inst: &Inst,
    k: usize,
) -> Option<&'s Value>
    ensures { option_map (λ v. value_of v.now) result ≡ value_by map.now (ids_of ids.now) (arg inst.now k) }
{
    value(map, ids, inst.operand(k))
}

/// The word of operand k.
pub fn word_at(map: &MemoryMap<'_>, ids: &Ids, inst: &Inst, k: usize) -> Option<u32>
    ensures { result ≡ word_by map.now (ids_of ids.now) (arg inst.now k) }
{
    word(map, ids, inst.operand(k))
}
