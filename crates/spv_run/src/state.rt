// Where an invocation of a module is.
ghost use Rattle.std.specs.Prelude.{◌≡◌, true, false, IfOk, map};
ghost use Rattle.spv_types.specs.View.{value_of};
ghost use Rattle.group_items.specs.Sides.{told_of, keys_repeat, IsWhole};
ghost use Rattle.spv_run.specs.Whole.{have_shape};

use group_items::Invocation;
use run_state::Conf;
use spv_words::Memory;
use std::alloc::Global;
use value_ops::all_copied;

/// An invocation under way: what it is told, where it stands, and the words for which it has asked, or room for them, until the
/// instruction that asks for them has taken them.
#[derive(Drop)]
pub struct State {
    pub(crate) told: Invocation,
    pub(crate) conf: Conf,
    pub(crate) words: Vec<u32>,
    pub(crate) taken: bool,
    ghost values: { have_shape (map value_of told.builtins.items) ≡ true },
    ghost sizes: { keys_repeat told.sizes.items ≡ false },
}

impl State {
    /// An invocation that is told this and stands here. There is an error only for want of memory.
    pub(crate) fn of(alloc: Global, inv: &Invocation, conf: Conf) -> Result<State, Memory>
        requires { IsWhole inv.now }
        ensures told { IfOk result (λ state. told_of state.told ≡ told_of inv.now) }
        ensures conf { IfOk result (λ state. state.conf ≡ conf) }
        ensures taken { IfOk result (λ state. state.taken ≡ false) }
    {
        Ok(State {
            told: Invocation {
                builtins: all_copied(alloc, &inv.builtins)?,
                sizes: inv.copied_sizes(alloc)?,
                special: inv.copied_special()?,
            },
            conf,
            words: Vec::new(alloc),
            taken: false,
        })
    }
}
