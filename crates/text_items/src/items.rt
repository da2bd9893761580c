// The items of a text before its functions.
ghost use Rattle.std.specs.Prelude.{◌≡◌, ◌++◌, ◌∷◌, [], IfOk, OnOk, map};
ghost use Rattle.std.specs.List.{All};
ghost use Rattle.glsl_ast.specs.View.{decl_of};
ghost use Rattle.text_rules.specs.Declarations.{constant_decl, declaration, declarations as declarations_of};
ghost use Rattle.few_law.specs.Short.{HasFewArgs};
ghost use Rattle.text_items.specs.Names.{item_names};
ghost use Rattle.text_items.specs.Wording.{source_of, names_of};

use crate::Written;
use crate::constants::{declare_constant, declare_struct};
use crate::variables::declare_variable;
use crate::wording::Wording;
use glsl_ast::Decl;
use name_alloc::Names;
use spv_module::Inst;
use spv_words::Memory;
use std::alloc::Global;

/// Adds the declaration of a constant.
fn add_constant(items: &mut Vec<Decl>, wording: &Wording, inst: &Inst) -> Result<(), Memory>
    requires { All HasFewArgs (source_of wording.now).of.globals }
    ensures { OnOk result (map decl_of items.new.items ≡ map decl_of items.old.items ++ constant_decl (source_of wording.now) (names_of wording.now) inst.now ∷ []) }
{
    let constant = declare_constant(wording, inst)?;
    items.push(constant)?;
    Ok(())
}

/// Adds what is written for a global instruction.
fn add_declaration(
    items: &mut Vec<Decl>,
    alloc: Global,
    written: &Written,
    names: &Names,
    inst: &Inst,
) -> Result<(), Memory>
    requires few { All HasFewArgs written.now.source.of.globals }
    requires args { HasFewArgs inst.now }
    ensures { OnOk result (map decl_of items.new.items ≡ map decl_of items.old.items ++ declaration written.now.source written.now.reached (item_names written.now.source names.now) inst.now) }
{
    let wording = Wording {
        alloc,
        readings: written.readings(),
        names,
    };
    if written.has_struct(inst) {
        items.push(declare_struct(&wording, inst)?)?;
    } else if written.has_constant(inst) {
        add_constant(items, &wording, inst)?;
    } else if written.has_variable(inst) {
        items.push(declare_variable(alloc, written, names, inst)?)?;
    }
    Ok(())
}

/// The items of a text before its functions, in the order in which the module defines them: structs, constants, Private and
/// Workgroup variables and blocks (GLSL 4.60, chapter 4). There is an error only for want of memory.
pub fn declarations(alloc: Global, written: &Written, names: &Names) -> Result<Vec<Decl>, Memory>
    requires { All HasFewArgs written.now.source.of.globals }
    ensures { IfOk result (λ items. map decl_of items.items ≡ declarations_of written.now.source written.now.reached (item_names written.now.source names.now)) }
{
    let mut items = Vec::new(alloc);
    for inst in written.module().globals() {
        add_declaration(&mut items, alloc, written, names, inst)?;
    }
    Ok(items)
}
