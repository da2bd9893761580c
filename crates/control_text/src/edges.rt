// Edges between blocks, and how regions end.
ghost use Rattle.std.specs.Prelude.{◌≡◌, ◌++◌, [], ◌∷◌, OnOk, map};
ghost use Rattle.glsl_ast.specs.View.{stmt_of};
ghost use Rattle.structure_recover.specs.View.{region_of, item_of};
ghost use Rattle.control_text.specs.Statements.{exit_text as text_of_exit, edge_text as text_of_edge, leave_loop as text_of_leave, entering as text_of_entering, copies_from as text_of_copies, plain_block as block_of_plain, is_break as is_break_exit};

use crate::block_text::{BlockText, Edge};
use crate::flags::set;
use crate::place::Place;
use crate::writer::Writer;
use glsl_ast::Stmt;
use spv_words::Memory;
use std::alloc::Global;
use structure_recover::{Exit, Item, Region};
use structure_rules::EdgeKind;

/// Whether an exit breaks out of a loop round the region.
pub fn is_break(exit: Exit) -> bool
    ensures { result ≡ is_break_exit exit }
{
    matches!(exit, Exit::Edge(_, _, EdgeKind::Break))
}

/// Appends a statement without parts.
fn push(stmt: Stmt, out: &mut Vec<Stmt>) -> Result<(), Memory>
    ensures { OnOk result (map stmt_of out.new.items ≡ map stmt_of out.old.items ++ map stmt_of (stmt ∷ [])) }
{
    out.push(stmt)?;
    Ok(())
}

/// The block that a plain item is.
#[tactic(auto, using(structure_recover::proofs::Views::view_rules))]
pub fn plain_block(item: &Item) -> Option<usize>
    ensures { result ≡ block_of_plain (item_of item.now) }
{
    match item {
        Item::Plain(block) => Some(*block),
        Item::If { .. } | Item::Loose { .. } | Item::Loop { .. } | Item::Switch { .. } => None,
    }
}

impl<'w, B: BlockText> Writer<'w, B> {
    /// Sets the flag of the loop that a break from inside a switch leaves.
    fn leave_loop(&self, in_loop: Option<usize>, out: &mut Vec<Stmt>) -> Result<(), Memory>
        ensures { OnOk result (map stmt_of out.new.items ≡ map stmt_of out.old.items ++ text_of_leave (B.blocks self.now.blocks.now) in_loop) }
    {
        match in_loop {
            None => Ok(()),
            Some(header) => set(self.alloc, self.blocks.leave(header), out),
        }
    }

    /// Appends what an edge does, behind its copies.
    #[tactic(auto, using(glsl_ast::proofs::Views::stmt_rows))]
    fn edge_text(
        &self,
        place: Place,
        to: usize,
        kind: EdgeKind,
        out: &mut Vec<Stmt>,
    ) -> Result<(), Memory>
        ensures { OnOk result (map stmt_of out.new.items ≡ map stmt_of out.old.items ++ text_of_edge (B.blocks self.now.blocks.now) place to kind) }
    {
        match kind {
            EdgeKind::Enter | EdgeKind::Merge => Ok(()),
            EdgeKind::SwitchBreak => push(Stmt::Break, out),
            EdgeKind::Break => {
                if place.in_switch {
                    self.leave_loop(place.in_loop, out)?;
                }
                push(Stmt::Break, out)
            }
            EdgeKind::Continue => push(Stmt::Continue, out),
            EdgeKind::Back if place.continues => Ok(()),
            EdgeKind::Back => push(Stmt::Continue, out),
            EdgeKind::Fall => set(self.alloc, self.blocks.fell(to), out),
        }
    }

    /// Appends the statements with which a region ends.
    #[tactic(auto, using(glsl_ast::proofs::Views::stmt_rows))]
    pub fn exit_text(&self, place: Place, exit: Exit, out: &mut Vec<Stmt>) -> Result<(), Memory>
        ensures { OnOk result (map stmt_of out.new.items ≡ map stmt_of out.old.items ++ text_of_exit (B.blocks self.now.blocks.now) place exit) }
    {
        match exit {
            Exit::Edge(from, to, kind) => {
                self.blocks.copies(self.alloc, Edge { from, to }, out)?;
                self.edge_text(place, to, kind, out)
            }
            Exit::Return(block) => push(Stmt::Return(self.blocks.value(self.alloc, block)?), out),
            Exit::Lost(_) | Exit::Closed => Ok(()),
        }
    }

    /// Appends the copies of an edge to the first block of a region: where the region is an edge alone, its
    /// exit writes them.
    pub fn entering(&self, edge: Edge, region: &Region, out: &mut Vec<Stmt>) -> Result<(), Memory>
        ensures { OnOk result (map stmt_of out.new.items ≡ map stmt_of out.old.items ++ text_of_entering (B.blocks self.now.blocks.now) edge.from edge.to (region_of region.now)) }
    {
        if region.items.is_empty() {
            return Ok(());
        }
        self.blocks.copies(self.alloc, edge, out)
    }

    /// Appends the copies of the edge from a plain block to the item behind it.
    pub fn copies_from(&self, from: Option<usize>, out: &mut Vec<Stmt>) -> Result<(), Memory>
        ensures { OnOk result (map stmt_of out.new.items ≡ map stmt_of out.old.items ++ text_of_copies (B.blocks self.now.blocks.now) from) }
    {
        if let Some(from) = from {
            let to = self.blocks.target(from, 0);
            self.blocks.copies(self.alloc, Edge { from, to }, out)?;
        }
        Ok(())
    }
}
