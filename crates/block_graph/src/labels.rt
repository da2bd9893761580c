// The blocks of a function, by their labels.
ghost use Rattle.std.specs.Prelude.{◌≡◌};
ghost use Rattle.structure_rules.specs.Graph.{index_of};

use spv_index::Locals;

/// The index of the block with this label, or 0 where there is none.
pub fn index(locals: &Locals, label: u32) -> usize
    ensures { result ≡ index_of locals.now label }
{
    locals.block(label).unwrap_or(0)
}
