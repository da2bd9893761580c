// What invocations are told.
ghost use Rattle.std.specs.Prelude.{◌≡◌, IfOk};
ghost use Rattle.group_items.specs.Sides.{told_of};
ghost use Rattle.step_run.specs.Kept.{told_by};

use crate::builtins::{triple_at, word_at};
use group_items::Invocation;
use spv_words::Memory;
use std::alloc::Global;
use std::collections::BTreeMap;

/// What an invocation was told: the built-in variables NumWorkgroups, WorkgroupId, LocalInvocationId, GlobalInvocationId and
/// LocalInvocationIndex (SPIR-V 1.6, section 3.21), the bytes of buffers by descriptor set and binding, and the
/// specialization (section 2.12).
#[derive(Drop)]
pub struct Told {
    pub groups: (u32, u32, u32),
    pub group: (u32, u32, u32),
    pub own: (u32, u32, u32),
    pub place: (u32, u32, u32),
    pub index: u32,
    pub sizes: Vec<(u32, u32, u32)>,
    pub special: BTreeMap<u32, u32>,
}

/// What an invocation is told, once more.
pub fn retold(alloc: Global, inv: &Invocation) -> Result<Told, Memory>
    ensures { IfOk result (λ t. told_by t ≡ told_of inv.now) }
{
    let values = inv.builtins.as_slice();
    Ok(Told {
        groups: triple_at(values, 0),
        group: triple_at(values, 1),
        own: triple_at(values, 2),
        place: triple_at(values, 3),
        index: word_at(values, 4),
        sizes: inv.copied_sizes(alloc)?,
        special: inv.copied_special()?,
    })
}
