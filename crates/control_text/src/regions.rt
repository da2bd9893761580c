// From a region to its statements.
ghost use Rattle.std.specs.Prelude.{◌≡◌, ◌++◌, ◌||◌, IfOk, OnOk, map, true, false, None, Some};
ghost use Rattle.structure_recover.specs.Tree.{before, ends, choose, switch as switch_item};
ghost use Rattle.structure_recover.specs.View.{region_of, item_of, group_of, groups_of};
ghost use Rattle.glsl_ast.specs.View.{stmt_of, expr_of};
ghost use Rattle.control_text.specs.Statements.{region_text as text_of_region, item_text as text_of_item, groups_text as text_of_groups, entering as text_of_entering, entering_case as text_of_entering_case, loop_text as text_of_loop, function_text as text_of_function, conditional as conditional_tree, turn as text_of_turn, inside_loop, has_break, item_has_break, groups_have_break};
ghost use Rattle.control_text.specs.declared.place.Place.{Place};
ghost use Rattle.control_text.specs.Written.{group_written};

use crate::block_text::{BlockText, Edge};
use crate::edges::{is_break, plain_block};
use crate::flags::{declare, named, set_flag};
use crate::place::{Place, in_loop, in_switch};
use crate::switches::in_order;
use crate::writer::Writer;
use glsl_ast::{Arm, Expr, Stmt};
use spv_words::Memory;
use std::alloc::Global;
use structure_recover::{Exit, Group, Item, Region};

/// The statements of a part, and whether an edge in it breaks out of a loop round it.
#[derive(Drop)]
struct Part {
    text: Vec<Stmt>,
    breaks: bool,
}

/// The groups of a switch with their targets, and whether an edge in them breaks out of a loop round it.
#[derive(Drop)]
struct Cases {
    arms: Vec<(usize, Arm)>,
    breaks: bool,
}

/// A conditional, whose else part is written where it has a statement.
#[tactic(auto, using(glsl_ast::proofs::Views::stmt_rows))]
fn either(condition: Expr, taken: Vec<Stmt>, other: Vec<Stmt>) -> Stmt
    ensures { stmt_of result ≡ conditional_tree (expr_of condition) (map stmt_of taken.items) (map stmt_of other.items) }
{
    if other.is_empty() {
        Stmt::If(condition, taken, None)
    } else {
        Stmt::If(condition, taken, Some(other))
    }
}

/// Appends what is left out in the first turn of a loop, and the statement that sets its flag.
#[tactic(auto, using(glsl_ast::proofs::Views::stmt_rows))]
fn later_turns(
    alloc: Global,
    flag: &str,
    text: Vec<Stmt>,
    out: &mut Vec<Stmt>,
) -> Result<(), Memory>
    ensures { OnOk result (map stmt_of out.new.items ≡ map stmt_of out.old.items ++ text_of_turn (Some flag.now) (map stmt_of text.items)) }
{
    let test = named(alloc, flag)?;
    out.push(Stmt::If(test, text, None))?;
    let set = set_flag(alloc, flag)?;
    out.push(set)?;
    Ok(())
}

impl<'w, B: BlockText> Writer<'w, B> {
    /// Appends the statements of a region, and answers whether an edge in it breaks out of a loop round it.
    #[cycle(text)]
    fn region_text(
        &self,
        place: Place,
        region: &Region,
        out: &mut Vec<Stmt>,
    ) -> Result<bool, Memory>
        ensures text { OnOk result (map stmt_of out.new.items ≡ map stmt_of out.old.items ++ text_of_region (B.blocks self.now.blocks.now) place (region_of region.now)) }
        ensures breaks { IfOk result (λ breaks. breaks ≡ has_break (region_of region.now)) }
    {
        self.items_text(place, &region.items, region.exit, out)
    }

    /// Appends the statements of the items of a region and of its exit, and answers whether an edge in them breaks
    /// out of a loop round it.
    #[cycle(text)]
    fn items_text(
        &self,
        place: Place,
        items: &[Item],
        exit: Exit,
        out: &mut Vec<Stmt>,
    ) -> Result<bool, Memory>
        ensures text { OnOk result (map stmt_of out.new.items ≡ map stmt_of out.old.items ++ text_of_region (B.blocks self.now.blocks.now) place (before (map item_of items.now) (ends exit))) }
        ensures breaks { IfOk result (λ breaks. breaks ≡ has_break (before (map item_of items.now) (ends exit))) }
    {
        let mut breaks = false;
        let mut from = None;
        for item in items {
            self.copies_from(from, out)?;
            breaks |= self.item_text(place, item, out)?;
            from = plain_block(item);
        }
        self.exit_text(place, exit, out)?;
        Ok(breaks | is_break(exit))
    }

    /// Appends the statements of an item, and answers whether an edge in it breaks out of a loop round it.
    #[cycle(text)]
    #[tactic(auto, using(structure_recover::proofs::Views::view_rules))]
    fn item_text(&self, place: Place, item: &Item, out: &mut Vec<Stmt>) -> Result<bool, Memory>
        ensures text { OnOk result (map stmt_of out.new.items ≡ map stmt_of out.old.items ++ text_of_item (B.blocks self.now.blocks.now) place (item_of item.now)) }
        ensures breaks { IfOk result (λ breaks. breaks ≡ item_has_break (item_of item.now)) }
    {
        match item {
            Item::Plain(block) => {
                self.blocks.statements(self.alloc, *block, out)?;
                Ok(false)
            }
            Item::If { head, taken, other } => { self.conditional(place, *head, taken, other, out) }
            Item::Loose { head, taken, other } => {
                self.conditional(place, *head, taken, other, out)
            }
            Item::Loop {
                head,
                cont: None,
                body,
            } => {
                self.plain_loop(*head, body, out)?;
                Ok(false)
            }
            Item::Loop {
                head,
                cont: Some(cont),
                body,
            } => {
                self.continued_loop(*head, cont, body, out)?;
                Ok(false)
            }
            Item::Switch { head, groups } => self.switch(place, *head, groups.as_slice(), out),
        }
    }

    /// The statements of a branch of a conditional, with the copies of the edge to it.
    #[inline(always)]
    #[cycle(text)]
    fn branch(
        &self,
        place: Place,
        from: usize,
        number: usize,
        region: &Region,
    ) -> Result<Part, Memory>
        ensures text { IfOk result (λ part. map stmt_of part.text.items ≡ text_of_entering (B.blocks self.now.blocks.now) from ((B.blocks self.now.blocks.now).target from number) (region_of region.now) ++ text_of_region (B.blocks self.now.blocks.now) place (region_of region.now)) }
        ensures breaks { IfOk result (λ part. part.breaks ≡ has_break (region_of region.now)) }
    {
        let mut text = Vec::new(self.alloc);
        let to = self.blocks.target(from, number);
        self.entering(Edge { from, to }, region, &mut text)?;
        let breaks = self.region_text(place, region, &mut text)?;
        Ok(Part { text, breaks })
    }

    /// Appends a conditional.
    #[cycle(text)]
    fn conditional(
        &self,
        place: Place,
        head: usize,
        taken: &Region,
        other: &Region,
        out: &mut Vec<Stmt>,
    ) -> Result<bool, Memory>
        ensures text { OnOk result (map stmt_of out.new.items ≡ map stmt_of out.old.items ++ text_of_item (B.blocks self.now.blocks.now) place (choose head (region_of taken.now) (region_of other.now))) }
        ensures breaks { IfOk result (λ breaks. breaks ≡ (has_break (region_of taken.now) || has_break (region_of other.now))) }
    {
        self.blocks.statements(self.alloc, head, out)?;
        let condition = self.blocks.condition(self.alloc, head)?;
        let taken = self.branch(place, head, 0, taken)?;
        let other = self.branch(place, head, 1, other)?;
        out.push(either(condition, taken.text, other.text))?;
        Ok(taken.breaks || other.breaks)
    }

    /// Appends a loop with these statements in it.
    #[tactic(auto, using(glsl_ast::proofs::Views::stmt_rows))]
    fn loop_text(&self, head: usize, inside: Vec<Stmt>, out: &mut Vec<Stmt>) -> Result<(), Memory>
        ensures { OnOk result (map stmt_of out.new.items ≡ map stmt_of out.old.items ++ text_of_loop (B.blocks self.now.blocks.now) head (map stmt_of inside.items)) }
    {
        declare(self.alloc, self.blocks.again(head), out)?;
        declare(self.alloc, self.blocks.leave(head), out)?;
        out.push(Stmt::For(inside))?;
        Ok(())
    }

    /// Appends a loop without a continue construct of its own.
    #[cycle(text)]
    fn plain_loop(&self, head: usize, body: &Region, out: &mut Vec<Stmt>) -> Result<(), Memory>
        ensures { OnOk result (map stmt_of out.new.items ≡ map stmt_of out.old.items ++ text_of_loop (B.blocks self.now.blocks.now) head (text_of_region (B.blocks self.now.blocks.now) (inside_loop head false) (region_of body.now))) }
    {
        let mut inside = Vec::new(self.alloc);
        self.region_text(in_loop(head, false), body, &mut inside)?;
        self.loop_text(head, inside, out)
    }

    /// Appends a loop with a continue construct, which stands first in the body.
    #[cycle(text)]
    fn continued_loop(
        &self,
        head: usize,
        cont: &Region,
        body: &Region,
        out: &mut Vec<Stmt>,
    ) -> Result<(), Memory>
        ensures { OnOk result (map stmt_of out.new.items ≡ map stmt_of out.old.items ++ text_of_loop (B.blocks self.now.blocks.now) head (text_of_turn ((B.blocks self.now.blocks.now).again head) (text_of_region (B.blocks self.now.blocks.now) (inside_loop head true) (region_of cont.now)) ++ text_of_region (B.blocks self.now.blocks.now) (inside_loop head false) (region_of body.now))) }
    {
        let mut inside = Vec::new(self.alloc);
        self.turn(head, cont, &mut inside)?;
        self.region_text(in_loop(head, false), body, &mut inside)?;
        self.loop_text(head, inside, out)
    }

    /// Appends the continue construct of a loop, which is left out in the first turn.
    #[cycle(text)]
    fn turn(&self, head: usize, cont: &Region, out: &mut Vec<Stmt>) -> Result<(), Memory>
        ensures { OnOk result (map stmt_of out.new.items ≡ map stmt_of out.old.items ++ text_of_turn ((B.blocks self.now.blocks.now).again head) (text_of_region (B.blocks self.now.blocks.now) (inside_loop head true) (region_of cont.now))) }
    {
        let Some(flag) = self.blocks.again(head) else {
            return Ok(());
        };
        let mut text = Vec::new(self.alloc);
        self.region_text(in_loop(head, true), cont, &mut text)?;
        later_turns(self.alloc, flag, text, out)
    }

    /// Appends a switch.
    #[cycle(text)]
    #[tactic(auto, using(glsl_ast::proofs::Views::stmt_rows))]
    fn switch(
        &self,
        place: Place,
        head: usize,
        groups: &[Group],
        out: &mut Vec<Stmt>,
    ) -> Result<bool, Memory>
        ensures text { OnOk result (map stmt_of out.new.items ≡ map stmt_of out.old.items ++ text_of_item (B.blocks self.now.blocks.now) place (switch_item head (groups_of (map group_of groups.now)))) }
        ensures breaks { IfOk result (λ breaks. breaks ≡ groups_have_break (groups_of (map group_of groups.now))) }
    {
        self.blocks.statements(self.alloc, head, out)?;
        self.fell_flags(groups, out)?;
        let selector = self.blocks.condition(self.alloc, head)?;
        let cases = self.groups_text(in_switch(place), head, groups)?;
        let arms = in_order(self.alloc, self.blocks.order(head), cases.arms)?;
        out.push(Stmt::Switch(selector, arms))?;
        self.behind_switch(place, cases.breaks, out)?;
        Ok(cases.breaks)
    }

    /// The groups of a switch with their targets, and whether an edge in them breaks out of a loop.
    #[cycle(text)]
    fn groups_text(&self, place: Place, head: usize, groups: &[Group]) -> Result<Cases, Memory>
        ensures text { IfOk result (λ cases. map group_written cases.arms.items ≡ text_of_groups (B.blocks self.now.blocks.now) place head (groups_of (map group_of groups.now))) }
        ensures breaks { IfOk result (λ cases. cases.breaks ≡ groups_have_break (groups_of (map group_of groups.now))) }
    {
        let mut arms = Vec::with_capacity(self.alloc, groups.len())?;
        let mut breaks = false;
        for group in groups {
            let labels = self.labels_text(head, &group.labels, group.default)?;
            let edge = Edge {
                from: head,
                to: group.target,
            };
            let part = self.case_body(place, edge, &group.body)?;
            breaks |= part.breaks;
            let body = part.text;
            arms.push((group.target, Arm { labels, body }))?;
        }
        Ok(Cases { arms, breaks })
    }

    /// The statements of a group of a switch, with the copies of the edge to it.
    #[cycle(text)]
    fn case_body(&self, place: Place, edge: Edge, body: &Region) -> Result<Part, Memory>
        ensures text { IfOk result (λ part. map stmt_of part.text.items ≡ text_of_entering_case (B.blocks self.now.blocks.now) edge.from edge.to (region_of body.now) ++ text_of_region (B.blocks self.now.blocks.now) place (region_of body.now)) }
        ensures breaks { IfOk result (λ part. part.breaks ≡ has_break (region_of body.now)) }
    {
        let mut text = Vec::new(self.alloc);
        self.entering_case(edge, body, &mut text)?;
        let breaks = self.region_text(place, body, &mut text)?;
        Ok(Part { text, breaks })
    }
}

/// Appends the statements of a function by the tree of its control flow, with what is written of its blocks and
/// edges (SPIR-V 1.6, section 2.11; GLSL 4.60, chapter 6). There is an error only where there is no memory.
///
/// The cost grows with the region and with what is written of its blocks.
pub fn function_text<B: BlockText>(
    alloc: Global,
    region: &Region,
    blocks: &B,
    out: &mut Vec<Stmt>,
) -> Result<(), Memory>
    ensures { OnOk result (map stmt_of out.new.items ≡ map stmt_of out.old.items ++ text_of_function (B.blocks blocks.now) (region_of region.now)) }
{
    let place = Place {
        in_loop: None,
        continues: false,
        in_switch: false,
    };
    let writer = Writer { alloc, blocks };
    writer.region_text(place, region, out)?;
    Ok(())
}
