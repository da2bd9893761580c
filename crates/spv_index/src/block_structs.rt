// Which structs make blocks of the variables that point to them.
ghost use Rattle.std.specs.Prelude.{◌≡◌, ◌&&◌, ◌==◌};
ghost use Rattle.spv_ops.specs.declared.StorageClass.TheVariants as storage;
ghost use Rattle.spv_index.specs.BlockStructs.{has as has_by, is_block as is_block_by, is_storage_struct as is_storage_struct_by, is_uniform_struct as is_uniform_struct_by, is_push_struct as is_push_struct_by, is_block_struct as is_block_struct_by};

use spv_decor::Decor;
use spv_module::Id;
use spv_ops::{Decoration, StorageClass};

fn has(decor: &Decor, decoration: Decoration, id: Id) -> bool
    ensures { result ≡ has_by decor.now decoration id.0 }
{
    decor.value(id, decoration.number()).is_some()
}

/// Whether a struct is decorated Block or BufferBlock (SPIR-V 1.6, section 3.20).
pub fn is_block(decor: &Decor, id: Id) -> bool
    ensures { result ≡ is_block_by decor.now id.0 }
{
    has(decor, Decoration::Block, id) || has(decor, Decoration::BufferBlock, id)
}

/// Whether a variable of this class that points to this struct is a storage block: one of class
/// StorageBuffer whose struct has Block, or of class Uniform whose struct has BufferBlock (SPIR-V 1.6,
/// sections 3.7 and 3.20).
pub fn is_storage_struct(decor: &Decor, class: u32, id: Id) -> bool
    ensures { result ≡ is_storage_struct_by decor.now class id.0 }
{
    (class == StorageClass::StorageBuffer.number() && has(decor, Decoration::Block, id))
        || (class == StorageClass::Uniform.number() && has(decor, Decoration::BufferBlock, id))
}

/// Whether it is a uniform block: one of class Uniform whose struct has Block.
pub fn is_uniform_struct(decor: &Decor, class: u32, id: Id) -> bool
    ensures { result ≡ is_uniform_struct_by decor.now class id.0 }
{
    class == StorageClass::Uniform.number() && has(decor, Decoration::Block, id)
}

/// Whether it is a push block: one of class PushConstant whose struct has Block.
fn is_push_struct(decor: &Decor, class: u32, id: Id) -> bool
    ensures { result ≡ is_push_struct_by decor.now class id.0 }
{
    class == StorageClass::PushConstant.number() && has(decor, Decoration::Block, id)
}

/// Whether it is a block of one of these kinds.
pub fn is_block_struct(decor: &Decor, class: u32, id: Id) -> bool
    ensures { result ≡ is_block_struct_by decor.now class id.0 }
{
    is_storage_struct(decor, class, id)
        || is_uniform_struct(decor, class, id)
        || is_push_struct(decor, class, id)
}
