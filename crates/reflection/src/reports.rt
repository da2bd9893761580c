// The report on a module.
ghost use Rattle.std.specs.Prelude.{◌≡◌, IfOk, IfErr, OnOk};
ghost use Rattle.module_check.specs.Asked.{asked};
ghost use Rattle.module_check.specs.Judged.{IsFine, IsFault};
ghost use Rattle.emit_glsl.specs.Given.{IsGiven};
ghost use Rattle.reflection.specs.Report.{IsReport};
ghost use Rattle.serde_json.specs.View.{view};

use emit_glsl::translate;
use profile_check::Options;
use serde_json::Value;
use spv_decor::Decor;
use spv_module::Module;
use spv_words::Fault;
use std::alloc::Global;
use text_report::report_of;

/// What another program has to know to run the text of a module, as one object of JSON (RFC 8259):
/// `blocks`, the blocks with `binding`, `kind` (`buffer`, `uniform` or `push`), `layout`, `members`
/// with `name`, `offset` in bytes and `type`, `name`, `qualifiers` and `set`, where a push block has
/// null for `set` and `binding`; `entry`, the name of the entry point; `shared`, the shared variables
/// with `name` and `type`; `size`, the size of workgroups in x, y and z under the overrides and
/// defaults, and `size_ids`, the SpecId of each of its parts, or null; and `spec`, the constants with a
/// SpecId that are not overridden, with `default`, `id`, `name` and `type`. Names and types are those of
/// the text (GLSL 4.60), and the order is that of the module.
///
/// It refuses as `emit_glsl::translate`, by the same rules and limits; the only other error is want of
/// memory.
pub fn report(
    alloc: Global,
    module: &Module,
    decor: &Decor,
    options: &Options,
) -> Result<Value, Fault>
    requires heads { decor.now ≡ «module».now.heads }
    requires given { IsGiven «module».now (asked options.now) }
    ensures passes { OnOk result (IsFine «module».now (asked options.now)) }
    ensures report { IfOk result (λ v. IsReport «module».now (asked options.now) (view v)) }
    ensures refused { IfErr result (IsFault «module».now (asked options.now)) }
{
    let unit = translate(alloc, module, decor, options)?.into_unit();
    Ok(report_of(alloc, &unit, module, decor, options.entry_name())?)
}
