// The variables into which pointers lead.
ghost use Rattle.std.specs.Prelude.{◌≡◌};
ghost use Rattle.std.specs.Option.{option_copied};
ghost use Rattle.module_semantics.specs.Accesses as accesses;
ghost use Rattle.memory_places.specs.Kernel.{ForEach};
ghost use Rattle.run_state.specs.Ids.{root_of};

use memory_places::MemoryMap;
use run_state::Root;
use spv_module::Inst;

/// The variable into which a pointer leads, if other invocations see it. They see none of a function.
pub fn seen<'a>(map: &MemoryMap<'a>, root: Root) -> Option<&'a Inst>
    ensures { ForEach map.now (λ s. option_copied result ≡ accesses.seen s (root_of root)) }
{
    match root {
        Root::Global(id) => map.seen(id),
        Root::Own(_) | Root::Lent(_, _) => None,
    }
}
