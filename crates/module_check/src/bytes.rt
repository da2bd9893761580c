// The bytes of a module, judged by every rule and limit.
ghost use Rattle.std.specs.Prelude.{◌≡◌, ◌≤◌, length, IfOk, IfErr, OnOk};
ghost use Rattle.spv_words.specs.Limit.{limit_number};
ghost use Rattle.spv_words.specs.declared.rule.Limit.TheVariants.{Bytes};
ghost use Rattle.conformance.specs.Rules.{Conforms, IsRight, IsWithinLimits};
ghost use Rattle.module_check.specs.Asked.{asked};
ghost use Rattle.module_check.specs.ReadFrom.{IsReadFrom, IsUnread};

use crate::judges::judge;
use profile_check::Options;
use spv_decor::Decor;
use spv_module::Module;
use spv_words::{Fault, Words};
use std::alloc::Global;

/// The module in these bytes. It refuses by the rules on words, and then by those on the form of a
/// module; the only other errors are the limit on the bound and want of memory.
pub fn read_module(alloc: Global, bytes: &[u8]) -> Result<Module, Fault>
    requires { length bytes.now ≤ limit_number Bytes }
    ensures read { IfOk result (IsReadFrom bytes.now) }
    ensures refused { IfErr result (IsUnread bytes.now) }
{
    let words = Words::of(alloc, bytes)?;
    Module::read(alloc, &words)
}

/// Judges bytes: whether they break no rule of the profile and exceed no limit.
///
/// It refuses by the rules in their groups: those on words, on the form of the module and on
/// decorations; on the choice of the entry point and on declarations; on types; and then those on
/// layouts, accesses, overrides, structure and calls. A rule is named only where it is broken at that
/// word and none of an earlier group is, and a limit only where it is exceeded. The only other error
/// is want of memory.
pub fn check_bytes(alloc: Global, bytes: &[u8], options: &Options) -> Result<(), Fault>
    requires { length bytes.now ≤ limit_number Bytes }
    ensures passes { OnOk result (Conforms bytes.now (asked options.now) × IsWithinLimits bytes.now (asked options.now)) }
    ensures refused { IfErr result (IsRight bytes.now (asked options.now)) }
{
    let module = read_module(alloc, bytes)?;
    let decor = Decor::read(alloc, &module)?;
    judge(alloc, &module, &decor, options)
}
