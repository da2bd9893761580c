// The report on a module by its text.
ghost use Rattle.std.specs.Prelude.{◌≡◌, option_map, find, string_bytes, IfOk};
ghost use Rattle.std.specs.Option.{option_copied};
ghost use Rattle.glsl_ast.specs.View.{unit_of};
ghost use Rattle.text_report.specs.Report.{is_entry_point, entry_name as entry_name_in, report_data};
ghost use Rattle.serde_json.specs.View.{view};

use crate::blocks::{Told, items_told};
use crate::constants::constants;
use crate::sizes::{size_ids_value, size_value};
use glsl_ast::Unit;
use serde_json::{Value, json};
use spv_decor::{Decor, text_of};
use spv_module::{Inst, Module};
use spv_ops::Op;
use std::alloc::{AllocError, Global};

fn entry_point(heads: &[Inst]) -> Option<&Inst>
    ensures { option_copied result ≡ find is_entry_point heads.now }
{
    heads.iter().find(|inst| inst.op == Op::EntryPoint)
}

/// The name of the entry point: the one that is asked for, else that of the only one.
fn entry_name(alloc: Global, name: Option<&str>, heads: &[Inst]) -> Result<String, AllocError>
    ensures { IfOk result (λ text. string_bytes text ≡ entry_name_in (option_map (λ n. n.now) name.entry) heads.now) }
{
    if let Some(name) = name {
        return String::from_str(alloc, name);
    }
    match entry_point(heads) {
        Some(inst) => {
            let text = text_of(alloc, inst.args.as_slice().get(2..).unwrap_or(&[]))?;
            String::from_utf8_lossy(alloc, &text)
        }
        None => Ok(String::new(alloc)),
    }
}

/// The report on a module by the tree of its text, as one object of JSON (RFC 8259): its blocks, the name of its entry point, its shared
/// variables, the size of workgroups, and the constants with a SpecId. `name` is the entry point that is asked for. There is an error only
/// for want of memory.
pub fn report_of(
    alloc: Global,
    unit: &Unit,
    module: &Module,
    decor: &Decor,
    name: Option<&str>,
) -> Result<Value, AllocError>
    requires { decor.now ≡ «module».now.heads }
    ensures { IfOk result (λ v. view v ≡ report_data «module».now (option_map (λ n. n.now) name.entry) (unit_of unit.now)) }
{
    json!(in alloc; {
        "blocks": items_told(alloc, Told::Blocks, &unit.items)?,
        "entry": entry_name(alloc, name, module.heads())?,
        "shared": items_told(alloc, Told::SharedVariables, &unit.items)?,
        "size": size_value(alloc, &unit.sizes)?,
        "size_ids": size_ids_value(alloc, &unit.sizes)?,
        "spec": constants(alloc, unit, module, decor)?,
    })
}
