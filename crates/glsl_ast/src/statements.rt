// Statements.
use crate::{Expr, Literal, Name, TypeName};

/// A place that is assigned: a name, and the way from it.
#[derive(Drop)]
pub struct LValue {
    pub name: Name,
    pub steps: Vec<LStep>,
}

/// One step from a place to a part of it.
#[derive(Drop)]
pub enum LStep {
    Member(Name),
    Index(Expr),
}

/// A label of a `switch` (GLSL 4.60, section 6.2).
#[derive(Clone, Copy, Debug, PartialEq, Eq)]
pub enum Label {
    Case(Literal),
    Default,
}

/// A statement (GLSL 4.60, chapter 6).
#[cycle(statement)]
#[derive(Drop)]
pub enum Stmt {
    Declare(TypeName, Name, Option<Expr>),
    Assign(LValue, Expr),
    Call(Name, Vec<Expr>),
    If(Expr, Vec<Stmt>, Option<Vec<Stmt>>),
    For(Vec<Stmt>),
    Switch(Expr, Vec<Arm>),
    Break,
    Continue,
    Return(Option<Expr>),
}

/// A group of a `switch`: its labels, and its body in braces.
#[cycle(statement)]
#[derive(Drop)]
pub struct Arm {
    pub labels: Vec<Label>,
    pub body: Vec<Stmt>,
}
