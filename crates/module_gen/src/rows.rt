// Lists of instructions.
ghost use Rattle.std.specs.Prelude.{◌≡◌, ◌++◌, OnOk, IsTrue, map};
ghost use Rattle.module_gen.specs.Rows.{instruction_of, are_short};

use crate::Builder;
use spv_ops::Op;
use spv_words::Memory;

/// Puts each of these opcodes with its words. At an `Err` some of them may have been put.
#[tactic(auto, using(crate::proofs::Short::short_at))]
pub fn put_rows(builder: &mut Builder, rows: &[(Op, &[u32])]) -> Result<(), Memory>
    requires { IsTrue (are_short rows.now) }
    ensures { OnOk result (builder.new ≡ record builder.old {
      insts = builder.old.insts ++ map instruction_of rows.now;
    }) }
{
    for (op, words) in rows {
        builder.put(op.number(), words)?;
    }
    Ok(())
}
