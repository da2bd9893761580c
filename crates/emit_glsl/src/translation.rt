// The translation.
ghost use Rattle.std.specs.Prelude.{◌≡◌, IfErr, IfOk, OnOk};
ghost use Rattle.glsl_ast.specs.View.{unit_of as tree_of_unit};
ghost use Rattle.module_check.specs.Asked.{asked};
ghost use Rattle.module_check.specs.Judged.{IsFine, IsFault};
ghost use Rattle.unit_rules.specs.Text.{IsTranslationOf};
ghost use Rattle.emit_glsl.specs.Given.{IsGiven};

use module_check::check_module;
use profile_check::Options;
use spv_decor::Decor;
use spv_module::Module;
use spv_words::Fault;
use std::alloc::Global;
use unit_text::{Translation, text_of};

/// The text of a module that was read, for the entry point and with the overrides of the options (GLSL 4.60, with the layout
/// qualifiers of Vulkan).
///
/// It judges the module first, and refuses it as the judges do: by a rule only where that is broken at that word, and by a limit
/// only where that is exceeded. The only other error is want of memory.
pub fn translate<'a>(
    alloc: Global,
    module: &'a Module,
    decor: &'a Decor<'a>,
    options: &'a Options,
) -> Result<Translation<'a>, Fault>
    requires heads { decor.now ≡ «module».now.heads }
    requires given { IsGiven «module».now (asked options.now) }
    ensures passes { OnOk result (IsFine «module».now (asked options.now)) }
    ensures translation { IfOk result (λ text. IsTranslationOf «module».now (asked options.now) (tree_of_unit text.unit)) }
    ensures refused { IfErr result (IsFault «module».now (asked options.now)) }
{
    match check_module(alloc, module, decor, options) {
        Err(fault) => Err(fault),
        Ok(found) => Ok(text_of(alloc, module, decor, found, &options.overrides)?),
    }
}
