// The trees of a GLSL text: one type for each production of the grammar, one variant for each alternative.
#![tactic(auto)]

mod copying;
mod expressions;
mod items;
mod names;
mod short;
mod statements;
mod types;

pub use expressions::{BinOp, Expr, Literal};
pub use items::{BlockPlace, BlockRules, Decl, Field, Member, Param, Qual, Size, Unit};
pub use names::Name;
pub use short::ShortText;
pub use statements::{Arm, LStep, LValue, Label, Stmt};
pub use types::{Base, Extent, TypeName};
