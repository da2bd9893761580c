// Whether it matters which instructions are live.
ghost use Rattle.std.specs.Prelude.{◌≡◌, ◌&&◌, not};
ghost use Rattle.std.specs.List.{list_any};
ghost use Rattle.spv_index.specs.BlockStructs.{is_block as is_block_struct};
ghost use Rattle.spv_ops.specs.Opcode.{is};
ghost use Rattle.spv_ops.specs.declared.Op.TheVariants as op;
ghost use Rattle.text_rules.specs.Constants.{is_constant as is_constant_global, reading};
ghost use Rattle.text_rules.specs.Printed.{is_named};
ghost use Rattle.text_items.specs.Asked.{is_asked as is_asked_global};

use constant_text::{Reading, Readings};
use spv_decor::Decor;
use spv_index::is_block;
use spv_module::{Id, Inst};
use spv_ops::Op;

/// Whether this is a constant that is read by its name.
fn is_named_constant(readings: &Readings, inst: &Inst) -> bool
    ensures { result ≡ (is_constant_global inst.now && is_named (reading readings.now inst.now)) }
{
    inst.op.is_constant() && matches!(readings.reading(inst), Reading::Named)
}

/// Whether this is a struct with neither Block nor BufferBlock.
fn is_plain_struct(decor: &Decor, inst: &Inst) -> bool
    ensures { result ≡ ((is inst.now.op op.TypeStruct) && not (is_block_struct decor.now inst.now.result)) }
{
    inst.op == Op::TypeStruct && !is_block(decor, Id(inst.result))
}

/// Whether this is a global that is written only where it is asked for: a constant that is read by its name, or a struct with neither
/// Block nor BufferBlock.
fn is_asked(readings: &Readings, inst: &Inst) -> bool
    ensures { result ≡ is_asked_global readings.now inst.now }
{
    is_named_constant(readings, inst) || is_plain_struct(readings.decor(), inst)
}

/// Whether what is written of a module may depend on which instructions are live.
pub fn asks_live(readings: &Readings) -> bool
    ensures { result ≡ list_any (is_asked_global readings.now) readings.now.of.globals }
{
    let globals = readings.module().globals();
    globals.iter().any(|inst| is_asked(readings, inst))
}
