// The functions that GLSL has.
ghost use Rattle.std.specs.Prelude.{◌≡◌, IfOk};
ghost use Rattle.glsl_ast.specs.View.{expr_of, exprs_of};
ghost use Rattle.glsl_ast.specs.Tree.{Expr as Tree, call};
ghost use Rattle.int_lowering.specs.Term.{built_in_name};

use glsl_ast::{Expr, Name};
use spv_words::Memory;
use std::alloc::Global;

/// A function that GLSL has (GLSL 4.60, chapter 8).
#[derive(Clone, Copy, Debug, PartialEq, Eq)]
pub enum BuiltIn {
    Min,
    Max,
    Sign,
    BitCount,
    FindLsb,
    FindMsb,
    BitfieldInsert,
    BitfieldExtract,
    BitfieldReverse,
    Any,
    All,
}

#[tactic(auto, unfolding(crate::specs::Term::built_in_name))]
fn spelling(function: BuiltIn) -> &'static str
    ensures { result.now ≡ built_in_name function }
{
    match function {
        BuiltIn::Min => "min",
        BuiltIn::Max => "max",
        BuiltIn::Sign => "sign",
        BuiltIn::BitCount => "bitCount",
        BuiltIn::FindLsb => "findLSB",
        BuiltIn::FindMsb => "findMSB",
        BuiltIn::BitfieldInsert => "bitfieldInsert",
        BuiltIn::BitfieldExtract => "bitfieldExtract",
        BuiltIn::BitfieldReverse => "bitfieldReverse",
        BuiltIn::Any => "any",
        BuiltIn::All => "all",
    }
}

/// A call of a function.
#[tactic(auto, using(glsl_ast::proofs::Views::expr_rows))]
pub(crate) fn call_built_in(
    alloc: Global,
    function: BuiltIn,
    args: Vec<Expr>,
) -> Result<Expr, Memory>
    ensures { IfOk result (λ e. expr_of e ≡ Tree.call (built_in_name function) (exprs_of args.items)) }
{
    Expr::call(alloc, Name::from_str(alloc, spelling(function))?, args)
}
