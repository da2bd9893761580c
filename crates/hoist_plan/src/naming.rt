// The plan of the values of a function.
ghost use Rattle.std.specs.Prelude.{◌≡◌, ◌+◌, ◌*◌, ◌==◌, ◌≤◌, ℕ, IfOk, OnOk, length, map, sum_by};
ghost use Rattle.std.specs.List.{IsDistinct};
ghost use Rattle.hoist_plan.specs.Plan.{form, is_carried, results as results_in};
ghost use Rattle.hoist_plan.specs.Kept.{form_in, is_carried_in, result_id, steps_of, AreRising};

use crate::Form;
use crate::carried::carried;
use crate::rows::{Linked, Told};
use id_map::IdMap;
use spv_index::Locals;
use spv_module::{Id, Module};
use spv_words::Memory;
use std::alloc::Global;
use std::collections::BTreeSet;
use std::marker::Model;
use std::sync::ledger::Ledger;
use use_chains::{Steps, Uses};

/// Which values of a function have variables, and where these are declared; which chains other blocks
/// need.
#[derive(Drop)]
pub struct Naming {
    forms: IdMap<Form>,
    carried: BTreeSet<u32>,
}

impl Model for Naming {
    ghost use Rattle.hoist_plan.specs.Kept.{NamingState};

    ghost Value = { NamingState };

    ghost view = { λ n. record { least = n.forms.least; slots = n.forms.slots.items; others = n.forms.others.entries; carried = n.carried.keys } };
}

impl Naming {
    /// How the result of an instruction is written; `Form::Gone` where no live instruction of the
    /// function has this id as its result.
    pub fn of(&self, id: Id) -> Form
        ensures { result ≡ form_in self.now id.0 }
    {
        self.forms.get(id.0).unwrap_or(Form::Gone)
    }

    /// Whether this is a chain that another block needs: it is mentioned there, or a chain that is
    /// based on it is needed by another block. Its indexes that are no constants then have variables.
    pub fn carried(&self, chain: Id) -> bool
        ensures { result ≡ is_carried_in self.now chain.0 }
    {
        self.carried.contains(&chain.0)
    }
}

/// Plans the values of a function by the slots that are linked: a mention is a linked slot, and an
/// instruction is live where it has an effect or a linked slot mentions its result.
///
/// A live value has a variable where it is an OpPhi, a load, an atomic operation, a call or an
/// insertion; where it is mentioned more than once, in another block, by an OpPhi or as an index of a
/// chain; where it is an operand that its expression repeats; or where its expression would be 17
/// operations high (SPIR-V 1.6, section 3.49). An OpPhi, and what is mentioned in another block, is
/// declared at the top of the function. A pointer has no variable. A slot is visited twice at most, and
/// each result takes one step more. There is an error only for want of memory.
pub fn plan<L: Ledger>(
    alloc: Global,
    module: &Module,
    locals: &Locals,
    uses: &Uses,
    steps: &mut Steps<L>,
) -> Result<Naming, Memory>
    requires { AreRising uses.now }
    ensures forms { IfOk result (λ n. (id : ℕ) → form_in n id ≡ form (record { globals = «module».now.globals; function = locals.now; links = uses.now }) id) }
    ensures carried { IfOk result (λ n. (id : ℕ) → is_carried_in n id ≡ is_carried (record { globals = «module».now.globals; function = locals.now; links = uses.now }) id) }
    ensures steps { OnOk result (steps.new ≡ steps.old + sum_by steps_of (results_in uses.now locals.now)) }
    ensures bound { OnOk result (IsDistinct (λ a b. a == b) (map result_id (results_in uses.now locals.now)) → steps.new ≤ steps.old + (2 * length uses.now + length (results_in uses.now locals.now))) }
{
    let linked = Linked {
        alloc,
        module,
        locals,
        uses,
    };
    let Told { forms, chains, .. } = linked.results(steps)?;
    Ok(Naming {
        forms: forms.forms,
        carried: carried(alloc, locals, &chains)?,
    })
}
