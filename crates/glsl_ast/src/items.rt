// The whole text and its items.
use crate::{Expr, Name, Stmt, TypeName};

/// A text: the sizes of the workgroup, and the items.
#[derive(Drop)]
pub struct Unit {
    pub sizes: Vec<Size>,
    pub items: Vec<Decl>,
}

/// A part of the workgroup's size, of axis 0, 1 or 2 for x, y and z: a number, or a specialization constant's id
/// (GLSL 4.60, section 4.4.1.4).
#[derive(Clone, Copy, Debug, PartialEq, Eq)]
pub struct Size {
    pub axis: u8,
    pub by_id: bool,
    pub number: u32,
}

/// An item of a text (GLSL 4.60, chapter 4). A function without a result is void.
#[derive(Drop)]
pub enum Decl {
    Struct {
        name: Name,
        fields: Vec<Field>,
    },
    Const {
        id: Option<u32>,
        ty: TypeName,
        name: Name,
        value: Expr,
    },
    Shared {
        ty: TypeName,
        name: Name,
    },
    Global {
        ty: TypeName,
        name: Name,
        value: Expr,
    },
    Block {
        place: BlockPlace,
        rules: BlockRules,
        quals: Vec<Qual>,
        buffer: bool,
        name: Name,
        members: Vec<Member>,
        instance: Name,
    },
    Function {
        result: Option<TypeName>,
        name: Name,
        params: Vec<Param>,
        body: Vec<Stmt>,
    },
}

/// A member of a struct.
#[derive(Drop)]
pub struct Field {
    pub ty: TypeName,
    pub name: Name,
}

/// Where a block is bound: to a set and a binding, or as push constants.
#[derive(Clone, Copy, Debug, PartialEq, Eq)]
pub enum BlockPlace {
    Set { set: u32, binding: u32 },
    Push,
}

/// By which rules a block is laid out (GLSL 4.60, section 4.4.5).
#[derive(Clone, Copy, Debug, PartialEq, Eq)]
pub enum BlockRules {
    Std430,
    Std140,
}

/// A memory qualifier (GLSL 4.60, section 4.10).
#[derive(Clone, Copy, Debug, PartialEq, Eq)]
pub enum Qual {
    Coherent,
    Volatile,
    Restrict,
    Readonly,
    Writeonly,
}

/// A member of a block, at an offset in bytes.
#[derive(Drop)]
pub struct Member {
    pub offset: u32,
    pub quals: Vec<Qual>,
    pub ty: TypeName,
    pub name: Name,
}

/// A parameter of a function.
#[derive(Drop)]
pub struct Param {
    pub inout: bool,
    pub ty: TypeName,
    pub name: Name,
}
