// Names as text.
ghost use Rattle.std.specs.Prelude.{◌≡◌, [], IfOk, unwrap_or};
ghost use Rattle.glsl_ast.specs.View.{name_text};
ghost use Rattle.name_alloc.specs.Lookup.{name_in};

use glsl_ast::Name;
use name_alloc::{Key, Names};
use spv_words::Memory;
use std::alloc::Global;

/// The name of a key, to stand in the tree; that of one that was not claimed is empty. There is an error only for want of memory.
#[inline(always)]
pub fn name(alloc: Global, names: &Names, key: Key) -> Result<Name, Memory>
    ensures { IfOk result (λ w. name_text w ≡ unwrap_or (name_in names.now key) []) }
{
    match names.of(key) {
        None => Ok(Name::from_str(alloc, "")?),
        Some(name) => Ok(name.shared()?),
    }
}
