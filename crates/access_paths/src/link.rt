// A chain that has indexes.
ghost use Rattle.std.specs.Prelude.{◌<◌, ◌^◌, length};

/// A chain with indexes.
#[derive(Clone, Copy)]
pub struct Link<'a> {
    /// Its result.
    pub chain: u32,
    /// The place of its block.
    pub stands: usize,
    pub indexes: &'a [u32],
    /// The type to which the first index applies.
    pub from: Option<u32>,
    /// The place, among the links, of the one before it on its way.
    pub before: Option<usize>,
    // they are numbered by words
    pub ghost few: { length indexes.now < 2 ^ 32 },
}
