// How tightly expressions bind, and so where one stands in parentheses.
ghost use Rattle.std.specs.Prelude.{◌≡◌};
ghost use Rattle.glsl_ast.specs.View.{expr_of};
ghost use Rattle.glsl_grammar.specs.Levels.{op_level as level_of_op, right_level as right_level_of, expr_level as level_of};

use glsl_ast::{BinOp, Expr};

// The loosest level of any expression.
pub const ANY: u8 = 12;

// The loosest level at which a condition of `?:` stands bare.
pub const CONDITION: u8 = 11;

// The loosest level at which an operand of a unary sign stands bare.
pub const UNARY: u8 = 1;

// The loosest level at which a part stands bare that a suffix follows.
pub const SUFFIXED: u8 = 0;

// The level of an operation: the smaller, the tighter. Its left operand stands bare up to this level.
pub fn op_level(op: BinOp) -> u8
    ensures { result ≡ level_of_op op }
{
    match op {
        BinOp::Mul | BinOp::Div | BinOp::Rem => 2,
        BinOp::Add | BinOp::Sub => 3,
        BinOp::Shl | BinOp::Shr => 4,
        BinOp::Less | BinOp::LessEqual | BinOp::Greater | BinOp::GreaterEqual => 5,
        BinOp::Equal | BinOp::NotEqual => 6,
        BinOp::And => 7,
        BinOp::Xor => 8,
        BinOp::Or => 9,
        BinOp::Both => 10,
        BinOp::Either => 11,
    }
}

// Up to which level its right operand stands bare: operators of a level group to the left.
pub fn right_level(op: BinOp) -> u8
    ensures { result ≡ right_level_of op }
{
    op_level(op) - 1
}

// The level of an expression.
#[tactic(auto, using(glsl_ast::proofs::Views::expr_rows))]
pub fn expr_level(expr: &Expr) -> u8
    ensures { result ≡ level_of (expr_of expr.now) }
{
    match expr {
        Expr::Literal(_) | Expr::Name(_) | Expr::Build(..) | Expr::Call(..) => SUFFIXED,
        Expr::Member(..) | Expr::Index(..) | Expr::Length(_) => SUFFIXED,
        Expr::Not(_) | Expr::Flip(_) => UNARY,
        Expr::Binary(op, ..) => op_level(*op),
        Expr::Choose(..) => ANY,
    }
}
