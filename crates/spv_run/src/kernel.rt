// A module with what its invocations need.
ghost use Rattle.std.specs.Prelude.{◌≡◌, IfOk, option_map};
ghost use Rattle.module_semantics.specs.Run as run;
ghost use Rattle.run_acts.specs.About.{ForEach, conf_of};
ghost use Rattle.run_flow.specs.Begun.{variables_among};

use memory_places::MemoryMap;
use run_flow::{Routines, first_frame, first_privates, variable_ids};
use run_state::Conf;
use spv_module::{Id, Module};
use spv_words::Memory;
use std::alloc::Global;
use std::collections::BTreeMap;

/// A module from an entry, under values of its constants, as a program of which invocations are run step by step. A step is one
/// instruction (SPIR-V 1.6, section "Instructions"); places have the numbers of 64 and 32 bits that a run has for them.
#[derive(Drop)]
pub struct ModuleProgram<'a> {
    pub(crate) alloc: Global,
    pub(crate) map: MemoryMap<'a>,
    pub(crate) routines: Routines<'a>,
    entry: Id,
    variables: Vec<u32>,
    ghost routines_are: { routines ≡ map.of.functions },
    ghost entry_is: { entry.0 ≡ map.entry },
    ghost variables_are: { variables.items ≡ variables_among map.of.globals },
}

/// The ids of the variables of a module.
fn variables_of(alloc: Global, module: &Module) -> Result<Vec<u32>, Memory>
    ensures { IfOk result (λ list. list.items ≡ variables_among «module».now.globals) }
{
    let mut list = Vec::new(alloc);
    variable_ids(&mut list, module.globals())?;
    Ok(list)
}

impl<'a> ModuleProgram<'a> {
    /// The program of a module with its memory from an entry. There is an error only for want of memory.
    pub fn new(alloc: Global, map: MemoryMap<'a>, entry: Id) -> Result<ModuleProgram<'a>, Memory>
        requires { entry.0 ≡ map.entry }
        ensures { IfOk result (λ program. program.map ≡ map.entry) }
    {
        let module = map.module();
        let routines = Routines::of(alloc, module)?;
        let variables = variables_of(alloc, module)?;
        Ok(ModuleProgram {
            alloc,
            map,
            routines,
            entry,
            variables,
        })
    }

    /// Where an invocation begins; none where its run has no meaning from the start.
    pub(crate) fn first_conf(&self) -> Result<Option<Conf>, Memory>
        ensures { ForEach self.now.map (λ s. IfOk result (λ conf. option_map (conf_of s.of.functions) conf ≡ run.start s)) }
    {
        if !self.map.have_values() {
            return Ok(None);
        }
        match self.routines.called(self.entry.0) {
            None => Ok(None),
            Some((place, routine)) => {
                let ids = BTreeMap::new(self.alloc);
                let top = first_frame(self.alloc, &self.map, routine, place, ids)?;
                let privates = first_privates(self.alloc, &self.map, &self.variables)?;
                Ok(Some(Conf {
                    top,
                    below: Vec::new(self.alloc),
                    privates,
                }))
            }
        }
    }
}
