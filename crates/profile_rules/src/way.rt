// What pointers lead through.

/// What a pointer may lead through: a variable or member decorated NonWritable, one decorated
/// NonReadable, or a storage block of class Uniform (SPIR-V 1.6, section 3.20).
#[derive(Clone, Copy, Debug)]
pub enum Way {
    NonWritable,
    NonReadable,
    BufferBlock,
}
