// The functions of a module, with what their calls need.
ghost use Rattle.std.specs.Prelude.{◌≡◌, IfOk, MatchOption, None, slice_get};
ghost use Rattle.std.specs.Option.{option_copied};
ghost use Rattle.profile_rules.specs.Entry.{function_of};
ghost use Rattle.run_flow.specs.Flow.{IsCalled};

use crate::routine::Routine;
use spv_index::Functions;
use spv_module::{Function, Id, Module};
use spv_words::Memory;
use std::alloc::Global;
use std::marker::Model;

/// The functions of a module, with what their calls need. Contracts see the list of them.
#[derive(Drop)]
pub struct Routines<'a> {
    functions: Functions<'a>,
    routines: Vec<Routine<'a>>,
}

impl<'a> Model for Routines<'a> {
    ghost use Rattle.std.specs.Prelude.{◌≡◌, List};
    ghost use Rattle.spv_module.specs.declared.inst.Function.{Function};

    ghost Value = { List Function };

    ghost view = { λ r. r.routines.items };

    ghost invariant = { λ r. r.functions ≡ r.routines.items };
}

fn routines_of<'a>(alloc: Global, functions: &'a [Function]) -> Result<Vec<Routine<'a>>, Memory>
    ensures { IfOk result (λ list. list.items ≡ functions.now) }
{
    let mut list = Vec::with_capacity(alloc, functions.len())?;
    for function in functions {
        list.push(Routine::of(alloc, function)?)?;
    }
    Ok(list)
}

impl<'a> Routines<'a> {
    /// The functions of a module. There is an error only for want of memory.
    pub fn of(alloc: Global, module: &'a Module) -> Result<Routines<'a>, Memory>
        ensures { IfOk result (λ r. r ≡ «module».now.functions) }
    {
        Ok(Routines {
            functions: Functions::of(alloc, module)?,
            routines: routines_of(alloc, module.functions())?,
        })
    }

    /// The function at a place, and `None` exactly where there is none.
    pub fn get(&self, place: usize) -> Option<&Routine<'a>>
        ensures { option_copied result ≡ slice_get self.now place }
    {
        self.routines.get(place)
    }

    /// The first function with this id and its place, and `None` exactly where there is none (SPIR-V 1.6, section 2.4).
    pub fn called(&self, id: u32) -> Option<(usize, &Routine<'a>)>
        ensures { MatchOption result (function_of self.now id ≡ None) (λ p. IsCalled self.now id p.0 p.1.now) }
    {
        match self.functions.get(Id(id)) {
            None => None,
            Some(place) => match self.routines.get(place) {
                None => None,
                Some(routine) => Some((place, routine)),
            },
        }
    }
}
