// The function that a test is about.
ghost use Rattle.std.specs.Prelude.{IfSome};
ghost use Rattle.module_check.specs.Judged.{IsRead};
ghost use Rattle.use_chains.specs.Small.{IsSmall};

use spv_module::{Function, Module};

/// The first function of a module that was read.
pub fn first_function(module: &Module) -> Option<&Function>
    requires { IsRead «module».now }
    ensures { IfSome result (λ f. IsSmall f.now) }
{
    module.functions().first()
}
