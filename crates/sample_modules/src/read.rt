// Modules from their words.
ghost use Rattle.std.specs.Prelude.{IfOk};
ghost use Rattle.module_check.specs.Judged.{IsRead};

use module_check::read_module;
use spv_module::Module;
use spv_words::{Fault, Limit, octets};
use std::alloc::{AllocError, Global};

// The header of a module, and a function up to its first label, %16.
static FRONT: [u32; 12] = [
    0x7230203, 0x10300, 0, 0x400, 0, 0x50036, 6, 1, 0, 7, 0x200f8, 16,
];

/// The words of these pieces, one after another, as octets, the lowest-order first (SPIR-V 1.6, section 2.3).
pub fn bytes_of(alloc: Global, pieces: &[&[u32]]) -> Result<Vec<u8>, AllocError> {
    let mut words = Vec::new(alloc);
    for piece in pieces {
        words.extend_from_slice(*piece)?;
    }
    octets(alloc, &words)
}

/// The module with the words of these pieces. It is refused as `read_module` refuses it, and by
/// `Limit::Bytes` where it is longer.
pub fn module_of(alloc: Global, pieces: &[&[u32]]) -> Result<Module, Fault>
    ensures { IfOk result IsRead }
{
    let bytes = bytes_of(alloc, pieces)?;
    if bytes.len() > 4194304 {
        return Err(Fault::Limit(Limit::Bytes));
    }
    read_module(alloc, &bytes)
}

/// The module of one function, %1, with this body behind its first label, %16.
pub fn function_of(alloc: Global, body: &[u32]) -> Result<Module, Fault>
    ensures { IfOk result IsRead }
{
    module_of(alloc, &[&FRONT, body, &[0x10038]])
}

/// These words, with another one at a place.
pub fn changed(
    alloc: Global,
    words: &[u32],
    place: usize,
    other: u32,
) -> Result<Vec<u32>, AllocError> {
    let mut list = Vec::new(alloc);
    for (i, word) in words.iter().enumerate() {
        list.push(if i == place { other } else { *word })?;
    }
    Ok(list)
}
