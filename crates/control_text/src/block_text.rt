// What is written of a function's blocks and edges.
ghost use Rattle.std.specs.Prelude.{◌≡◌, ◌++◌, IfOk, OnOk, map};
ghost use Rattle.std.specs.Option.{option_map};
ghost use Rattle.glsl_ast.specs.View.{expr_of, stmt_of};
ghost use Rattle.control_text.specs.Statements.{Blocks};

use glsl_ast::{Expr, Literal, Stmt};
use spv_words::Memory;
use std::alloc::Global;

/// An edge between blocks of a function.
#[derive(Clone, Copy, Debug)]
pub struct Edge {
    pub from: usize,
    pub to: usize,
}

/// What is written of the blocks of a function and of the edges between them. Blocks are named by their
/// indexes in the function, loops and switches by the block with their merge instruction (SPIR-V 1.6,
/// section 2.11). Each method has an answer for any number. There is an error only where there is no
/// memory.
pub trait BlockText {
    /// What the methods answer.
    ghost blocks: { Self → Blocks };

    /// Appends the statements of a block before its terminator.
    fn statements(&self, alloc: Global, block: usize, out: &mut Vec<Stmt>) -> Result<(), Memory>
        ensures { OnOk result (map stmt_of out.new.items ≡ map stmt_of out.old.items ++ (blocks self.now).statements block) };

    /// The condition of an OpBranchConditional, or the selector of an OpSwitch.
    fn condition(&self, alloc: Global, block: usize) -> Result<Expr, Memory>
        ensures { IfOk result (λ e. expr_of e ≡ (blocks self.now).condition block) };

    /// The literal of a case by its word.
    fn case(&self, header: usize, word: u32) -> Literal
        ensures { result ≡ (blocks self.now).case header word };

    /// What a block that leaves the function returns.
    fn value(&self, alloc: Global, block: usize) -> Result<Option<Expr>, Memory>
        ensures { IfOk result (λ e. option_map expr_of e ≡ (blocks self.now).value block) };

    /// The block to which the target with this number leads.
    fn target(&self, block: usize, number: usize) -> usize
        ensures { result ≡ (blocks self.now).target block number };

    /// Appends the copies of an edge: what it assigns to the variables of the OpPhi instructions of the
    /// block to which it leads.
    fn copies(&self, alloc: Global, edge: Edge, out: &mut Vec<Stmt>) -> Result<(), Memory>
        ensures { OnOk result (map stmt_of out.new.items ≡ map stmt_of out.old.items ++ (blocks self.now).copies edge.from edge.to) };

    /// The name of the flag of a loop that is false in its first turn only, where one is needed.
    fn again(&self, header: usize) -> Option<&str>
        ensures { option_map (λ s. s.now) result ≡ (blocks self.now).again header };

    /// The name of the flag of a loop that is set where a switch leaves it, where one is needed.
    fn leave(&self, header: usize) -> Option<&str>
        ensures { option_map (λ s. s.now) result ≡ (blocks self.now).leave header };

    /// The name of the flag that is set where a case target is fallen into, where one is needed.
    fn fell(&self, target: usize) -> Option<&str>
        ensures { option_map (λ s. s.now) result ≡ (blocks self.now).fell target };

    /// The order in which the targets of a switch are written.
    fn order(&self, header: usize) -> &[usize]
        ensures { result.now ≡ (blocks self.now).order header };
}
