// The start of a dispatch: its invocations, what each is told, and the first memory.
ghost use Rattle.std.specs.Prelude.{◌≡◌, ℕ, ◌<◌, ◌≤◌, ◌+◌, ◌*◌, ◌/◌, ◌%◌, [], length, map, false, IfOk, OnOk, IsTrue, replicate};
ghost use Rattle.std.specs.List.{list_all};
ghost use Rattle.std.specs.BTreeMap.{get};
ghost use Rattle.std.specs.Ordering.{nat_cmp};
ghost use Rattle.traces.specs.Invocations.{Invocation as Told};
ghost use Rattle.spv_types.specs.View.{value_of};
ghost use Rattle.dispatch_semantics.specs.Grid.{Grid, product, invocation as told_by};
ghost use Rattle.group_items.specs.Sides.{three as three_words, built_ins as built_in_values, bytes_in, keys_repeat, fresh, with_at};
ghost use Rattle.group_items.specs.Events.{location_of};
ghost use Rattle.group_items.specs.Playing.{IsAt};
ghost use Rattle.dispatch_case.specs.Three.{triple_of};
ghost use Rattle.group_sched.specs.Sides.{IsGridOf, IsExtent, CanStart};
ghost use Rattle.dispatch_case.specs.Cases.{parts_of, buffer_view, is_short, most_numbers};
ghost use Rattle.group_sched.specs.Stores.{words_in, rooms_in, location_in};
ghost use Rattle.group_sched.specs.Start.{size_of, spread, with_buffers, first_store, setup_of};

use crate::extent::{Extent, along, global};
use dispatch_case::Case;
use group_items::{Invocation, LeafPlace, Play, Runner, Store};
use spv_module::Value;
use spv_words::Memory;
use std::alloc::Global;
use std::collections::BTreeMap;

/// What words are put into: a buffer, or the push constants.
#[derive(Clone, Copy, Debug, PartialEq, Eq)]
enum Base {
    Buffer(u32, u32),
    Push,
}

/// The place of a byte.
fn place_in(base: Base, byte: u64) -> LeafPlace
    ensures { location_of result ≡ location_in base byte }
{
    match base {
        Base::Buffer(set, binding) => LeafPlace::Buffer(set, binding, byte),
        Base::Push => LeafPlace::Push(byte),
    }
}

/// Puts words, one every four bytes.
fn put_words(alloc: Global, store: &mut Store, base: Base, words: &[u32]) -> Result<(), Memory>
    requires room { 0 < rooms_in store.old }
    requires few { length words.now ≤ most_numbers }
    ensures put { OnOk result (words_in store.new ≡ spread (location_in base) 0 words.now (words_in store.old)) }
    ensures rooms { rooms_in store.new ≡ rooms_in store.old }
{
    for k in 0..words.len() {
        store.put(alloc, 0, &place_in(base, 4 * k as u64), words[k])?;
    }
    Ok(())
}

/// Puts the words of buffers.
fn put_buffers(
    alloc: Global,
    store: &mut Store,
    buffers: &[(u32, u32, Vec<u32>)],
) -> Result<(), Memory>
    requires room { 0 < rooms_in store.old }
    requires few { IsTrue (list_all (λ b. is_short b.2) (map buffer_view buffers.now)) }
    ensures put { OnOk result (words_in store.new ≡ with_buffers (map buffer_view buffers.now) (words_in store.old)) }
    ensures rooms { rooms_in store.new ≡ rooms_in store.old }
{
    for buffer in buffers {
        put_words(alloc, store, Base::Buffer(buffer.0, buffer.1), &buffer.2)?;
    }
    Ok(())
}

/// The memory at the start, for so many workgroups: the words of buffers and push constants, and 0 elsewhere. There is an error only
/// for want of memory.
pub fn first_memory(alloc: Global, groups: usize, case: &Case) -> Result<Store, Memory>
    requires some { 0 < groups }
    requires buffers { IsTrue (list_all (λ b. is_short b.2) (map buffer_view case.now.buffers.items)) }
    requires push { length case.now.push.items ≤ most_numbers }
    ensures words { IfOk result (λ store. words_in store ≡ first_store (parts_of case.now)) }
    ensures rooms { IfOk result (λ store. rooms_in store ≡ groups) }
{
    let mut store = Store::new(alloc, groups)?;
    put_buffers(alloc, &mut store, &case.buffers)?;
    put_words(alloc, &mut store, Base::Push, &case.push)?;
    Ok(store)
}

/// A value of three words.
fn three(alloc: Global, words: [u32; 3]) -> Result<Value, Memory>
    ensures { IfOk result (λ value. value_of value ≡ three_words (triple_of words)) }
{
    Ok(Value::Many(vec![in alloc;
        Value::Word(words[0]),
        Value::Word(words[1]),
        Value::Word(words[2]),
    ]?))
}

/// The values of the built-in variables of an invocation.
fn built_ins(
    alloc: Global,
    groups: [u32; 3],
    size: [u32; 3],
    group: usize,
    who: usize,
) -> Result<Vec<Value>, Memory>
    ghost grid: { Grid }
    requires grid { IsGridOf grid groups size }
    requires group { group ≡ product grid.size }
    requires few { who ≤ 1024 }
    ensures { IfOk result (λ values. map value_of values.items ≡ built_in_values (told_by grid who)) }
{
    let index = who % group;
    let cell = along(groups, who / group);
    let own = along(size, index);
    Ok(vec![in alloc;
        three(alloc, groups)?,
        three(alloc, cell)?,
        three(alloc, own)?,
        three(alloc, global(cell, size, own))?,
        Value::Word(index as u32),
    ]?)
}

/// What each invocation is told alike.
pub fn told_alike(
    alloc: Global,
    case: &Case,
    special: BTreeMap<u32, u32>,
) -> Result<Invocation, Memory>
    requires { IsTrue (list_all (λ b. is_short b.2) (map buffer_view case.now.buffers.items)) }
    ensures sizes { IfOk result (λ inv. inv.sizes.items ≡ map size_of (map buffer_view case.now.buffers.items)) }
    ensures special { IfOk result (λ inv. inv.special ≡ special) }
{
    let sizes = sizes(alloc, &case.buffers)?;
    Ok(Invocation {
        builtins: Vec::new(alloc),
        sizes,
        special,
    })
}

/// How many bytes words have.
fn bytes(words: &[u32]) -> u32
    requires { length words.now ≤ most_numbers }
    ensures { result ≡ 4 * length words.now }
{
    4 * words.len() as u32
}

/// How many bytes buffers have.
fn sizes(alloc: Global, buffers: &[(u32, u32, Vec<u32>)]) -> Result<Vec<(u32, u32, u32)>, Memory>
    requires { IsTrue (list_all (λ b. is_short b.2) (map buffer_view buffers.now)) }
    ensures { IfOk result (λ sizes. sizes.items ≡ map size_of (map buffer_view buffers.now)) }
{
    let mut sizes = Vec::with_capacity(alloc, buffers.len())?;
    for buffer in buffers {
        sizes.push((buffer.0, buffer.1, bytes(&buffer.2)))?;
    }
    Ok(sizes)
}

/// Begins one invocation more, whose built-in variables have these values.
fn begin_one<R: Runner>(
    side: &mut R,
    inv: &mut Invocation,
    values: Vec<Value>,
) -> Result<(), Memory>
    ghost told: { Told }
    requires values { map value_of values.items ≡ built_in_values told }
    requires sizes { bytes_in inv.old.sizes.items ≡ told.buffer_bytes }
    requires apart { keys_repeat inv.old.sizes.items ≡ false }
    requires special { get nat_cmp inv.old.special ≡ told.specialization }
    requires takes { R.takes side.old told.specialization }
    ensures begun { OnOk result (R.at side.new ≡ with_at (R.at side.old) (R.count side.old) (fresh told)) }
    ensures counted { OnOk result (R.count side.new ≡ R.count side.old + 1) }
    ensures sizes { inv.new.sizes ≡ inv.old.sizes }
    ensures special { inv.new.special ≡ inv.old.special }
    ensures runs { R.runs side.new ≡ R.runs side.old }
    ensures takes { R.takes side.new told.specialization }
{
    inv.builtins = values;
    side.begin(inv)?;
    Ok(())
}

/// Begins all invocations of a dispatch.
fn begin_all<R: Runner>(
    alloc: Global,
    side: &mut R,
    inv: &mut Invocation,
    groups: [u32; 3],
    size: [u32; 3],
    extent: Extent,
) -> Result<(), Memory>
    ghost grid: { Grid }
    requires grid { IsGridOf grid groups size }
    requires extent { IsExtent grid.groups grid.size extent }
    requires sizes { bytes_in inv.old.sizes.items ≡ grid.buffer_bytes }
    requires apart { keys_repeat inv.old.sizes.items ≡ false }
    requires special { get nat_cmp inv.old.special ≡ grid.specialization }
    requires takes { R.takes side.old grid.specialization }
    requires none { R.count side.old ≡ 0 }
    ensures begun { OnOk result ((i : ℕ) → i < extent.count → R.at side.new i ≡ fresh (told_by grid i)) }
    ensures counted { OnOk result (R.count side.new ≡ extent.count) }
    ensures runs { R.runs side.new ≡ R.runs side.old }
{
    for who in 0..extent.count {
        let values = built_ins(alloc, groups, size, extent.group, who)?;
        begin_one(side, inv, values)?;
    }
    Ok(())
}

fn zeros(alloc: Global, count: usize) -> Result<Vec<usize>, Memory>
    ensures { IfOk result (λ list. list.items ≡ replicate count 0) }
{
    Ok(vec![in alloc; 0; count]?)
}

/// Begins a dispatch, each invocation of which is told this, but for its built-in variables.
pub fn begin<R: Runner>(
    alloc: Global,
    side: &mut R,
    inv: &mut Invocation,
    case: &Case,
    size: [u32; 3],
    extent: Extent,
) -> Result<Play, Memory>
    requires start { CanStart (parts_of case.now) (triple_of size) extent }
    requires sizes { inv.old.sizes.items ≡ map size_of (map buffer_view case.now.buffers.items) }
    requires takes { R.takes side.old (get nat_cmp inv.old.special) }
    requires none { R.count side.old ≡ 0 }
    ensures at { IfOk result (IsAt (setup_of (parts_of case.now) (triple_of size) (get nat_cmp inv.old.special)) (R.at side.new)) }
    ensures none { IfOk result (λ play. play.events.items ≡ []) }
    ensures counted { OnOk result (R.count side.new ≡ extent.count) }
    ensures runs { R.runs side.new ≡ R.runs side.old }
{
    begin_all(alloc, side, inv, case.groups, size, extent)?;
    Ok(Play {
        group: extent.group,
        passed: zeros(alloc, extent.count)?,
        store: first_memory(alloc, extent.groups, case)?,
        events: Vec::new(alloc),
        weight: 0,
    })
}
