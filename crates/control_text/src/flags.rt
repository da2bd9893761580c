// Flags: variables that say how control came to a place.
ghost use Rattle.std.specs.Prelude.{◌≡◌, ◌++◌, IfOk, OnOk, map, [], ◌∷◌, true, false};
ghost use Rattle.std.specs.Option.{option_map};
ghost use Rattle.glsl_ast.specs.Tree.{name as name_tree};
ghost use Rattle.glsl_ast.specs.View.{expr_of, stmt_of};
ghost use Rattle.control_text.specs.Statements.{flags, set_flag as set_flag_text, declare_flag as declare_flag_text};

use glsl_ast::{Base, Expr, LValue, Literal, Name, Stmt, TypeName};
use spv_words::Memory;
use std::alloc::Global;

/// A flag as an expression.
#[tactic(auto, using(glsl_ast::proofs::Views::expr_rows))]
pub fn named(alloc: Global, flag: &str) -> Result<Expr, Memory>
    ensures { IfOk result (λ e. expr_of e ≡ name_tree flag.now) }
{
    Ok(Expr::Name(Name::from_str(alloc, flag)?))
}

/// `flag = true;`
#[tactic(auto, using(glsl_ast::proofs::Views::stmt_rows, glsl_ast::proofs::Views::expr_rows))]
pub fn set_flag(alloc: Global, flag: &str) -> Result<Stmt, Memory>
    ensures { IfOk result (λ s. stmt_of s ≡ set_flag_text flag.now true) }
{
    let place = LValue {
        name: Name::from_str(alloc, flag)?,
        steps: Vec::new(alloc),
    };
    Ok(Stmt::Assign(place, Expr::Literal(Literal::Truth(true))))
}

/// `bool flag = false;`
#[tactic(auto, using(glsl_ast::proofs::Views::stmt_rows, glsl_ast::proofs::Views::expr_rows))]
fn declare_flag(alloc: Global, flag: &str) -> Result<Stmt, Memory>
    ensures { IfOk result (λ s. stmt_of s ≡ declare_flag_text flag.now) }
{
    let ty = TypeName {
        base: Base::Bool,
        extents: Vec::new(alloc),
    };
    let name = Name::from_str(alloc, flag)?;
    let value = Expr::Literal(Literal::Truth(false));
    Ok(Stmt::Declare(ty, name, Some(value)))
}

/// Appends the statement that sets a flag, where it is needed.
pub fn set(alloc: Global, flag: Option<&str>, out: &mut Vec<Stmt>) -> Result<(), Memory>
    ensures { OnOk result (map stmt_of out.new.items ≡ map stmt_of out.old.items ++ flags (λ f. set_flag_text f true ∷ []) (option_map (λ s. s.now) flag.entry)) }
{
    if let Some(flag) = flag {
        out.push(set_flag(alloc, flag)?)?;
    }
    Ok(())
}

/// Appends the declaration of a flag, where it is needed.
pub fn declare(alloc: Global, flag: Option<&str>, out: &mut Vec<Stmt>) -> Result<(), Memory>
    ensures { OnOk result (map stmt_of out.new.items ≡ map stmt_of out.old.items ++ flags (λ f. declare_flag_text f ∷ []) (option_map (λ s. s.now) flag.entry)) }
{
    if let Some(flag) = flag {
        out.push(declare_flag(alloc, flag)?)?;
    }
    Ok(())
}
