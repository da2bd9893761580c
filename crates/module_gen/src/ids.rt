// The ids of what the pieces of a generated module share.

/// the function of the entry point
pub const ENTRY: u32 = 1;

/// the invocation's id, a variable
pub const INVOCATION: u32 = 2;

/// the struct of the buffer
pub const BLOCK: u32 = 3;

/// its member, a runtime array
pub const ARRAY: u32 = 4;

pub const BUFFER: u32 = 5;

pub const VOID: u32 = 6;

pub const FUNCTION_TYPE: u32 = 7;

pub const UINT: u32 = 8;

/// three of `UINT`
pub const VECTOR: u32 = 9;

/// points to a `VECTOR` of class Input
pub const INPUT_VECTOR: u32 = 10;

/// points to a `UINT` of class Input
pub const INPUT_UINT: u32 = 11;

/// points to the struct
pub const BUFFER_BLOCK: u32 = 12;

/// points to a `UINT` of the buffer
pub const BUFFER_UINT: u32 = 13;

pub const ZERO: u32 = 14;

pub const ONE: u32 = 15;

pub const FIRST_BLOCK: u32 = 16;

pub const INDEX_POINTER: u32 = 17;

/// which element an invocation works on
pub const INDEX: u32 = 18;

pub const BOOL: u32 = 19;

pub const EIGHT: u32 = 20;
