// The claims of names by a function.
ghost use Rattle.std.specs.Prelude.{◌≡◌, [], IfOk, false, flat_map};
ghost use Rattle.few_law.specs.Short.{HasFewArgs, IsShort};
ghost use Rattle.text_rules.specs.Claims.{Plan, claim_spares};

use spv_module::{Function, Inst};
use spv_words::Memory;
use std::alloc::Global;

/// What is planned of a function that is written, as far as it claims names. Blocks are named by their indexes in the function;
/// each method has an answer for any number.
pub trait FunctionClaims {
    /// What the methods answer.
    ghost plan: { Self → Plan };

    /// The function.
    fn function(&self) -> &Function
        ensures function { result.now ≡ (plan self.now).function }
        ensures short { IsShort result.now };

    /// Whether the result with an id has a variable.
    fn is_named(&self, id: u32) -> bool
        ensures { result ≡ (plan self.now).is_named id };

    /// Whether a block that is reached needs the flag of a loop that is false in its first turn only.
    fn again(&self, block: usize) -> bool
        ensures { result ≡ (plan self.now).again block };

    /// Whether one needs the flag of a loop that is set where a switch leaves it.
    fn leave(&self, block: usize) -> bool
        ensures { result ≡ (plan self.now).leave block };

    /// Whether one needs the flag of a case target that is set where it is fallen into.
    fn fell(&self, block: usize) -> bool
        ensures { result ≡ (plan self.now).fell block };

    /// Whether an instruction may be a chain whose indexes other blocks need.
    fn has_captured(&self, inst: &Inst) -> bool
        ensures { result ≡ false → (plan self.now).captured inst.now ≡ [] };

    /// The numbers of the indexes of a chain that other blocks need.
    fn captured(&self, alloc: Global, inst: &Inst) -> Result<Vec<u32>, Memory>
        requires { HasFewArgs inst.now }
        ensures { IfOk result (λ numbers. numbers.items ≡ (plan self.now).captured inst.now) };

    /// The blocks to which one leads, each once, in the order of its terminator.
    fn targets(&self, alloc: Global, block: usize) -> Result<Vec<usize>, Memory>
        ensures { IfOk result (λ targets. targets.items ≡ (plan self.now).targets block) };

    /// Whether the copies of an edge that leaves a block may need spares.
    fn has_spares(&self, block: usize) -> bool
        ensures { result ≡ false → flat_map (claim_spares (plan self.now) block) ((plan self.now).targets block) ≡ [] };

    /// How many spares the copies of an edge need.
    fn spares(&self, from: usize, to: usize) -> u32
        ensures { result ≡ (plan self.now).spares from to };
}
