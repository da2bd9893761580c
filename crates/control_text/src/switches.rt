// The parts of a switch.
ghost use Rattle.std.specs.Prelude.{◌≡◌, ◌++◌, IfOk, OnOk, map, true, None};
ghost use Rattle.structure_recover.specs.View.{region_of, group_of, groups_of};
ghost use Rattle.glsl_ast.specs.View.{stmt_of, arm_of};
ghost use Rattle.control_text.specs.Statements.{labels_text as text_of_labels, entering_case as text_of_entering_case, fell_flags as text_of_fell_flags, behind_switch as text_of_behind_switch, in_order as arms_in_order, by_target};
ghost use Rattle.control_text.specs.Written.{group_written};
ghost use Rattle.control_text.specs.Rising.{target_of, stand_so, is_behind as is_behind_of};

use crate::block_text::{BlockText, Edge};
use crate::flags::{declare, named};
use crate::place::Place;
use crate::writer::Writer;
use glsl_ast::{Arm, Expr, Label, Stmt};
use spv_words::Memory;
use std::alloc::{AllocError, Global};
use std::collections::BTreeMap;
use structure_recover::{Group, Region};

/// Whether the target stands behind the one before it.
fn is_behind(before: Option<usize>, target: usize) -> bool
    ensures { result ≡ is_behind_of before target }
{
    match before {
        None => true,
        Some(before) => before < target,
    }
}

/// Whether the groups stand in this order already, and their targets rise.
fn stand_in_order(order: &[usize], groups: &[(usize, Arm)]) -> bool
    ensures { result ≡ true → stand_so None order.now (map target_of groups.now) ≡ true }
{
    if order.len() != groups.len() {
        return false;
    }
    let mut before = None;
    for (place, target) in order.iter().enumerate() {
        if groups[place].0 != *target || !is_behind(before, *target) {
            return false;
        }
        before = Some(*target);
    }
    true
}

/// The groups as they stand.
fn as_they_stand(alloc: Global, groups: Vec<(usize, Arm)>) -> Result<Vec<Arm>, AllocError>
    ensures { IfOk result (λ arms. arms.items ≡ map (λ g. g.1) groups.items) }
{
    groups.into_iter().map(|(_, arm)| arm).collect(alloc)
}

/// The groups, each brought to its place in an order of their targets.
fn reordered(
    alloc: Global,
    order: &[usize],
    groups: Vec<(usize, Arm)>,
) -> Result<Vec<Arm>, AllocError>
    ensures { IfOk result (λ arms. map arm_of arms.items ≡ arms_in_order order.now (by_target (map group_written groups.items))) }
{
    let mut by_target: BTreeMap<usize, Arm> = groups.into_iter().collect(alloc)?;
    let mut arms = Vec::new(alloc);
    for target in order {
        if let Some(arm) = by_target.remove(target) {
            arms.push(arm)?;
        }
    }
    Ok(arms)
}

/// The groups in an order of their targets.
#[tactic(auto, using(crate::proofs::Standing::stands))]
pub fn in_order(
    alloc: Global,
    order: &[usize],
    groups: Vec<(usize, Arm)>,
) -> Result<Vec<Arm>, Memory>
    ensures { IfOk result (λ arms. map arm_of arms.items ≡ arms_in_order order.now (by_target (map group_written groups.items))) }
{
    if stand_in_order(order, &groups) {
        return Ok(as_they_stand(alloc, groups)?);
    }
    Ok(reordered(alloc, order, groups)?)
}

impl<'w, B: BlockText> Writer<'w, B> {
    /// The labels of a group, the default last.
    pub fn labels_text(
        &self,
        header: usize,
        words: &[u32],
        default: bool,
    ) -> Result<Vec<Label>, Memory>
        ensures { IfOk result (λ labels. labels.items ≡ text_of_labels (B.blocks self.now.blocks.now) header words.now default) }
    {
        let mut labels = Vec::with_capacity(self.alloc, words.len() + usize::from(default))?;
        for word in words {
            labels.push(Label::Case(self.blocks.case(header, *word)))?;
        }
        if default {
            labels.push(Label::Default)?;
        }
        Ok(labels)
    }

    /// Appends the copies of the edge from a switch to a case target: not after a fall.
    #[tactic(auto, using(glsl_ast::proofs::Views::stmt_rows, glsl_ast::proofs::Views::expr_rows))]
    pub fn entering_case(
        &self,
        edge: Edge,
        body: &Region,
        out: &mut Vec<Stmt>,
    ) -> Result<(), Memory>
        ensures { OnOk result (map stmt_of out.new.items ≡ map stmt_of out.old.items ++ text_of_entering_case (B.blocks self.now.blocks.now) edge.from edge.to (region_of body.now)) }
    {
        let Some(flag) = self.blocks.fell(edge.to) else {
            return self.entering(edge, body, out);
        };
        let fell = Box::new(self.alloc, named(self.alloc, flag)?)?;
        let mut copies = Vec::with_capacity(self.alloc, 1)?;
        self.entering(edge, body, &mut copies)?;
        out.push(Stmt::If(Expr::Not(fell), copies, None))?;
        Ok(())
    }

    /// Appends the declarations of the flags of the case targets that are fallen into.
    #[tactic(auto, using(crate::proofs::Rows::group_rules))]
    pub fn fell_flags(&self, groups: &[Group], out: &mut Vec<Stmt>) -> Result<(), Memory>
        ensures { OnOk result (map stmt_of out.new.items ≡ map stmt_of out.old.items ++ text_of_fell_flags (B.blocks self.now.blocks.now) (groups_of (map group_of groups.now))) }
    {
        for group in groups {
            declare(self.alloc, self.blocks.fell(group.target), out)?;
        }
        Ok(())
    }

    /// Appends what stands behind a switch by which a loop may be left.
    #[tactic(auto, using(glsl_ast::proofs::Views::stmt_rows))]
    pub fn behind_switch(
        &self,
        place: Place,
        breaks: bool,
        out: &mut Vec<Stmt>,
    ) -> Result<(), Memory>
        ensures { OnOk result (map stmt_of out.new.items ≡ map stmt_of out.old.items ++ text_of_behind_switch (B.blocks self.now.blocks.now) place breaks) }
    {
        if !breaks {
            return Ok(());
        }
        let Some(header) = place.in_loop else {
            return Ok(());
        };
        let Some(flag) = self.blocks.leave(header) else {
            return Ok(());
        };
        let mut leaving = Vec::with_capacity(self.alloc, 1)?;
        leaving.push(Stmt::Break)?;
        out.push(Stmt::If(named(self.alloc, flag)?, leaving, None))?;
        Ok(())
    }
}
