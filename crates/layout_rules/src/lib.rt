// The layout of buffer blocks, and the rules on it: definitions alone.
#![tactic(auto)]

/// The layout rules of a block (OpenGL 4.6, section 7.6.2.2; GLSL 4.60, section 4.4.5).
#[derive(Clone, Copy, Debug, PartialEq, Eq)]
pub enum Kind {
    Std430,
    Std140,
}
