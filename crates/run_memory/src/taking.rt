// The words that loads and atomic instructions asked for.
ghost use Rattle.std.specs.Prelude.{◌≡◌, ◌+◌, ◌<◌, ◌^◌, ℕ, List, IfOk, OnOk, OnErr, option_map, slice_index, if◌then◌else◌};
ghost use Rattle.spv_module.specs.declared.inst.Function.{Function};
ghost use Rattle.spv_module.specs.declared.inst.Inst.{Inst as Instruction};
ghost use Rattle.module_semantics.specs.Steps as steps;
ghost use Rattle.run_acts.specs.About.{value_of, ForEach, behind, conf_of, narrowed, told_words, IsStill};
ghost use Rattle.run_memory.specs.Outcomes.{with_read};

use crate::atomics::update_of;
use crate::loads::{Source, source_of};
use run_acts::Site;
use run_state::{Conf, Held, advance, set};
use spv_module::{Inst, Value};
use spv_ops::{AtomicOp, OpGroup};
use spv_words::Memory;
use value_ops::value_from;

/// The value that a load has from these words, if it asks for any.
fn value_read(site: &Site, conf: &Conf, words: &[u32]) -> Result<Option<Value>, Memory>
    ensures { ForEach site.now.map.now (λ s. IfOk result (λ v. (fs : List Function) (rest : List Instruction) → told_words (narrowed (steps.load_step s (conf_of fs conf.now) rest site.now.inst.now)) words.now (conf_of fs conf.now) ≡ with_read (conf_of fs conf.now) rest site.now.inst.now (option_map value_of v))) }
{
    match source_of(site, conf)? {
        Source::Missing => Ok(None),
        Source::Kept(_, _) => Ok(None),
        Source::Seen(_, _, shape) => Ok(Some(value_from(site.alloc, &shape, words)?)),
    }
}

/// A load takes its words.
fn take_read(site: &Site, conf: &mut Conf, words: &[u32]) -> Result<(), Memory>
    requires room { conf.old.top.at + 1 < 2 ^ 64 }
    ensures took { ForEach site.now.map.now (λ s. OnOk result (conf_of s.of.functions conf.new ≡ told_words (narrowed (steps.load_step s (conf_of s.of.functions conf.old) (behind s.of.functions conf.old) site.now.inst.now)) words.now (conf_of s.of.functions conf.old))) }
    ensures err { OnErr result (IsStill site.now.map.now conf.old conf.new) }
{
    match value_read(site, conf, words)? {
        None => Ok(()),
        Some(value) => set(conf, site.inst.result, Held::Value(value)),
    }
}

/// The first word.
fn first_word(words: &[u32]) -> u32
    ensures { result ≡ slice_index words.now 0 }
{
    words.first().copied().unwrap_or(0)
}

/// An atomic instruction has found this word, which is its result if it has one.
fn set_found(conf: &mut Conf, op: AtomicOp, inst: &Inst, words: &[u32]) -> Result<(), Memory>
    requires room { conf.old.top.at + 1 < 2 ^ 64 }
    ensures found { (fs : List Function) → OnOk result (conf_of fs conf.new ≡ steps.set_found (conf_of fs conf.old) (behind fs conf.old) inst.now op words.now) }
    ensures err { (fs : List Function) → OnErr result (conf_of fs conf.new ≡ conf_of fs conf.old) }
{
    match op {
        AtomicOp::Store => {
            advance(conf);
            Ok(())
        }
        _ => {
            let word = Value::Word(first_word(words));
            set(conf, inst.result, Held::Value(word))
        }
    }
}

/// Whether an atomic instruction has a meaning.
fn is_update(site: &Site, op: AtomicOp, conf: &Conf) -> Result<bool, Memory>
    ensures { ForEach site.now.map.now (λ s. IfOk result (λ is. (fs : List Function) (rest : List Instruction) (words : List ℕ) → told_words (narrowed (steps.atomic_step op s (conf_of fs conf.now) rest site.now.inst.now)) words (conf_of fs conf.now) ≡ (if is then steps.set_found (conf_of fs conf.now) rest site.now.inst.now op words else conf_of fs conf.now))) }
{
    Ok(update_of(site, op, conf)?.is_some())
}

/// An atomic instruction takes its word.
fn take_found(site: &Site, op: AtomicOp, conf: &mut Conf, words: &[u32]) -> Result<(), Memory>
    requires room { conf.old.top.at + 1 < 2 ^ 64 }
    ensures took { ForEach site.now.map.now (λ s. OnOk result (conf_of s.of.functions conf.new ≡ told_words (narrowed (steps.atomic_step op s (conf_of s.of.functions conf.old) (behind s.of.functions conf.old) site.now.inst.now)) words.now (conf_of s.of.functions conf.old))) }
    ensures err { OnErr result (IsStill site.now.map.now conf.old conf.new) }
{
    if is_update(site, op, conf)? {
        set_found(conf, op, site.inst, words)
    } else {
        Ok(())
    }
}

/// The same for an instruction of any group.
fn take_in(site: &Site, group: OpGroup, conf: &mut Conf, words: &[u32]) -> Result<(), Memory>
    requires room { conf.old.top.at + 1 < 2 ^ 64 }
    ensures took { ForEach site.now.map.now (λ s. OnOk result (conf_of s.of.functions conf.new ≡ told_words (narrowed (steps.step_by (steps.step_in group) s (conf_of s.of.functions conf.old) (behind s.of.functions conf.old) site.now.inst.now)) words.now (conf_of s.of.functions conf.old))) }
    ensures err { OnErr result (IsStill site.now.map.now conf.old conf.new) }
{
    match group {
        OpGroup::Load => take_read(site, conf, words),
        OpGroup::Atomic(op) => take_found(site, op, conf, words),
        _ => Ok(()),
    }
}

/// Takes the words that an instruction asked for, and goes on behind it. One that asks for none leaves all as it was. There is an
/// error only for want of memory, and it leaves all as it was.
pub fn take(site: &Site, conf: &mut Conf, words: &[u32]) -> Result<(), Memory>
    requires room { conf.old.top.at + 1 < 2 ^ 64 }
    ensures took { ForEach site.now.map.now (λ s. OnOk result (conf_of s.of.functions conf.new ≡ told_words (narrowed (steps.step_by (steps.step_kind site.now.inst.now.op) s (conf_of s.of.functions conf.old) (behind s.of.functions conf.old) site.now.inst.now)) words.now (conf_of s.of.functions conf.old))) }
    ensures err { OnErr result (IsStill site.now.map.now conf.old conf.new) }
{
    take_in(site, site.inst.op.group(), conf, words)
}
