// Where an invocation stands.
ghost use Rattle.std.specs.Prelude.{◌≡◌, ◌<◌, ◌+◌, ◌^◌, ℕ, OnOk, OnErr, IsSome, None};
ghost use Rattle.std.specs.BTreeMap.{get};
ghost use Rattle.std.specs.Ordering.{nat_cmp};
ghost use Rattle.module_semantics.specs.State.{put as put_by};
ghost use Rattle.run_state.specs.Ids.{ids_of, held_of, with_held};
ghost use Rattle.run_state.specs.Confs.{IsAdvanced, IsSet, IsSame};

use crate::held::Held;
use spv_module::Value;
use spv_words::Memory;
use std::collections::BTreeMap;

/// What ids have. An id that has had something keeps its place, so that what it has next needs no memory.
pub type Ids = BTreeMap<u32, Option<Held>>;

/// A call under way: its function and the block by their places, how many instructions of the block are done, what its ids have,
/// and its variables.
#[derive(Drop)]
pub struct Frame {
    pub function: usize,
    pub block: usize,
    pub at: usize,
    pub ids: Ids,
    pub variables: BTreeMap<u32, Value>,
}

/// The present call; those below it, each with the id that waits for its result, the first one first; the Private variables.
#[derive(Drop)]
pub struct Conf {
    pub top: Frame,
    pub below: Vec<(Frame, u32)>,
    pub privates: BTreeMap<u32, Value>,
}

/// Gives an id what it has from now on.
pub fn put(ids: &mut Ids, id: u32, held: Held) -> Result<(), Memory>
    ensures put { OnOk result ((q : ℕ) → ids_of ids.new q ≡ put_by (ids_of ids.old) id (held_of held) q) }
    ensures err { OnErr result ((q : ℕ) → ids_of ids.new q ≡ ids_of ids.old q) }
{
    ids.insert(id, Some(held))?;
    Ok(())
}

/// Makes a place for an id, which has what it had.
pub fn make_place(ids: &mut Ids, id: u32) -> Result<(), Memory>
    ensures same { (q : ℕ) → ids_of ids.new q ≡ ids_of ids.old q }
    ensures place { OnOk result (IsSome (get nat_cmp ids.new id)) }
    ensures others { (q : ℕ) → IsSome (get nat_cmp ids.old q) → IsSome (get nat_cmp ids.new q) }
{
    if !ids.contains_key(&id) {
        ids.insert(id, None)?;
    }
    Ok(())
}

/// Gives an id that has a place what it has from now on. It takes no memory.
pub fn put_in_place(ids: &mut Ids, id: u32, held: Held)
    requires { IsSome (get nat_cmp ids.old id) }
    ensures put { (q : ℕ) → ids_of ids.new q ≡ put_by (ids_of ids.old) id (held_of held) q }
    ensures places { (q : ℕ) → IsSome (get nat_cmp ids.old q) → IsSome (get nat_cmp ids.new q) }
{
    let _ = ids.insert(id, Some(held));
}

/// An id has nothing from now on. It takes no memory.
pub fn forget(ids: &mut Ids, id: u32)
    ensures { (q : ℕ) → ids_of ids.new q ≡ with_held (ids_of ids.old) id None q }
{
    if ids.contains_key(&id) {
        let _ = ids.insert(id, None);
    }
}

/// Goes on behind an instruction.
pub fn advance(conf: &mut Conf)
    requires room { conf.old.top.at + 1 < 2 ^ 64 }
    ensures { IsAdvanced conf.old conf.new }
{
    conf.top.at += 1;
}

/// Goes on behind an instruction, whose result has this from now on.
pub fn set(conf: &mut Conf, id: u32, held: Held) -> Result<(), Memory>
    requires room { conf.old.top.at + 1 < 2 ^ 64 }
    ensures set { OnOk result (IsSet conf.old id (held_of held) conf.new) }
    ensures err { OnErr result (IsSame conf.old conf.new) }
{
    put(&mut conf.top.ids, id, held)?;
    conf.top.at += 1;
    Ok(())
}
