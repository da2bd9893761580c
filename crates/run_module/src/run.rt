// The run of a case on a module that was read.
ghost use Rattle.std.specs.Prelude.{◌≡◌, IfOk, IfErr, OnOk, IsTrue};
ghost use Rattle.dispatch_case.specs.Cases.{parts_of, is_fine};
ghost use Rattle.profile_rules.specs.Entry.{group_size};
ghost use Rattle.constant_values.specs.Refused.{IsCause};
ghost use Rattle.module_check.specs.Asked.{asked};
ghost use Rattle.module_check.specs.Judged.{IsRead, IsFine, IsFault};
ghost use Rattle.memory_places.specs.Conditions.{CanRun};
ghost use Rattle.run_module.specs.Ends.{IsRunFrom, IsRunOf};

use crate::given::words_given;
use crate::size::size_of;
use command_line::RunLimit;
use constant_values::resolve;
use dispatch_case::Case;
use group_sched::Stop;
use memory_places::MemoryMap;
use module_check::check_module;
use profile_check::{Entry, Options};
use run_lines::run_program;
use spv_decor::Decor;
use spv_module::Module;
use spv_run::ModuleProgram;
use spv_words::Fault;
use std::alloc::Global;

/// What a run of a case comes to: its lines, or a quantity that is above its largest number.
#[derive(Drop)]
pub enum CaseRun {
    Said(String),
    Above(RunLimit),
}

/// Runs a case from an entry point, where the module can be run from there.
fn run_from(
    alloc: Global,
    module: &Module,
    decor: &Decor,
    options: &Options,
    case: &Case,
    entry: &Entry,
) -> Result<CaseRun, Fault>
    requires passes { IsFine «module».now (asked options.now) }
    requires heads { decor.now ≡ «module».now.heads }
    requires read { IsRead «module».now }
    requires can { CanRun «module».now entry.now.function.0 }
    requires size { entry.now.size.items ≡ group_size «module».now entry.now.function.0 }
    requires fine { IsTrue (is_fine (parts_of case.now)) }
    ensures run { IfOk result (IsRunFrom «module».now options.now.overrides.pairs.items entry.now.function.0 (parts_of case.now)) }
    ensures refused { IfErr result (IsCause «module».now options.now.overrides.pairs.items) }
{
    let overrides = &options.overrides;
    let special = words_given(alloc, overrides.pairs.as_slice())?;
    let constants = resolve(alloc, module, decor, overrides, &special)?;
    let map = MemoryMap::new(alloc, module, decor, &constants, entry.function)?;
    let program = ModuleProgram::new(alloc, map, entry.function)?;
    let size = size_of(entry.size.as_slice(), &special);
    match run_program(alloc, program, case, size, special) {
        Ok(lines) => Ok(CaseRun::Said(lines)),
        Err(Stop::Invocations) => Ok(CaseRun::Above(RunLimit::Invocations)),
        Err(Stop::Events) => Ok(CaseRun::Above(RunLimit::Events)),
        Err(Stop::Memory) => Err(Fault::Memory),
    }
}

/// Judges a module that was read, as `check_module` does, and runs a case on it from the entry point that is asked for, with the
/// overrides as the specialization: its lines, or the limit that it is above.
pub fn run_case(
    alloc: Global,
    module: &Module,
    decor: &Decor,
    options: &Options,
    case: &Case,
) -> Result<CaseRun, Fault>
    requires fine { IsTrue (is_fine (parts_of case.now)) }
    requires heads { decor.now ≡ «module».now.heads }
    requires read { IsRead «module».now }
    ensures passes { OnOk result (IsFine «module».now (asked options.now)) }
    ensures run { IfOk result (IsRunOf «module».now (asked options.now) (parts_of case.now)) }
    ensures refused { IfErr result (IsFault «module».now (asked options.now)) }
{
    let conforming = check_module(alloc, module, decor, options)?;
    run_from(alloc, module, decor, options, case, &conforming.entry)
}
