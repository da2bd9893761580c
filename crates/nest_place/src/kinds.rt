// The kinds of edges.
ghost use Rattle.std.specs.Prelude.{◌≡◌, ◌==◌, ◌<◌, not, length, true, false, slice_get, find, MatchOption, if◌then◌else◌};
ghost use Rattle.std.specs.Option.{option_and_then};
ghost use Rattle.structure_rules.specs.Graph.{nth, is_value as is_value_of, is_switch as is_switch_exit, merge_named as merge_named_by, continue_named as continue_named_by};
ghost use Rattle.structure_rules.specs.Nesting.{inner as inner_of, role as role_of};
ghost use Rattle.structure_rules.specs.EdgeKinds.{innermost as innermost_of, innermost_switch as innermost_switch_of, is_if as is_if_part, is_loop as is_loop_part, body_header as body_header_of, continue_header as continue_header_of, loop_header as loop_header_of, if_header as if_header_of, case_switch as case_switch_of, case_target as case_target_of, merges_to as merges_to_block, continues_to as continues_to_block, is_back as is_back_edge, is_continue as is_continue_edge, is_break as is_break_edge, is_switch_break as is_switch_break_edge, is_merge_edge as is_merge, is_fall as is_fall_edge, is_enter as is_enter_edge, case_of as case_of_role, entered_from as entered_from_role, are_same as are_same_values, has_kind, has_some_kind};
ghost use Rattle.nest_place.specs.Nests.{IsOrigin, has_outer_kind};

use crate::forms::is_switch;
use structure_rules::{EdgeKind, Exit, Merge, Node, Part, Role};

/// What is round the edges of a block: the block, the nearest loop or continue construct, the
/// innermost construct, and the innermost switch before the nearest loop.
#[derive(Clone, Copy, Debug)]
struct Origin {
    pub block: usize,
    pub nearest: Option<Part>,
    pub innermost: Option<Part>,
    pub switch: Option<usize>,
}

fn is_value(x: usize, value: Option<usize>) -> bool
    ensures { result ≡ is_value_of x value }
{
    match value {
        None => false,
        Some(y) => y == x,
    }
}

fn are_same(a: Option<usize>, b: Option<usize>) -> bool
    ensures { result ≡ are_same_values a b }
{
    match a {
        None => false,
        Some(x) => is_value(x, b),
    }
}

fn is_if(part: Part) -> bool
    ensures { result ≡ is_if_part part }
{
    matches!(part, Part::If(_))
}

fn is_loop(part: Part) -> bool
    ensures { result ≡ is_loop_part part }
{
    matches!(part, Part::Loop(_) | Part::Cont(_))
}

fn body_header(part: Option<Part>) -> Option<usize>
    ensures { result ≡ option_and_then body_header_of part }
{
    match part? {
        Part::Loop(header) => Some(header),
        Part::If(_) | Part::Cont(_) | Part::Case(_, _) => None,
    }
}

fn continue_header(part: Option<Part>) -> Option<usize>
    ensures { result ≡ option_and_then continue_header_of part }
{
    match part? {
        Part::Cont(header) => Some(header),
        Part::If(_) | Part::Loop(_) | Part::Case(_, _) => None,
    }
}

fn loop_header(part: Option<Part>) -> Option<usize>
    ensures { result ≡ option_and_then loop_header_of part }
{
    match part? {
        Part::Loop(header) | Part::Cont(header) => Some(header),
        Part::If(_) | Part::Case(_, _) => None,
    }
}

fn if_header(part: Option<Part>) -> Option<usize>
    ensures { result ≡ option_and_then if_header_of part }
{
    match part? {
        Part::If(header) => Some(header),
        Part::Loop(_) | Part::Cont(_) | Part::Case(_, _) => None,
    }
}

fn case_switch(part: Option<Part>) -> Option<usize>
    ensures { result ≡ option_and_then case_switch_of part }
{
    match part? {
        Part::Case(switch, _) => Some(switch),
        Part::If(_) | Part::Loop(_) | Part::Cont(_) => None,
    }
}

pub fn case_target(part: Option<Part>) -> Option<usize>
    ensures { result ≡ option_and_then case_target_of part }
{
    match part? {
        Part::Case(_, target) => Some(target),
        Part::If(_) | Part::Loop(_) | Part::Cont(_) => None,
    }
}

fn merge_named(merge: Merge) -> Option<usize>
    ensures { result ≡ merge_named_by merge }
{
    match merge {
        Merge::Absent => None,
        Merge::Selection(block) | Merge::Loop(block, _) => Some(block),
    }
}

fn continue_named(merge: Merge) -> Option<usize>
    ensures { result ≡ continue_named_by merge }
{
    match merge {
        Merge::Loop(_, target) => Some(target),
        Merge::Absent | Merge::Selection(_) => None,
    }
}

fn merge_of(nodes: &[Node], block: usize) -> Merge
    ensures { result ≡ (nth nodes.now block).merge }
{
    nodes.get(block).map_or(Merge::Absent, |node| node.merge)
}

/// Whether the header is there, and names the block as its merge block.
pub fn merges_to(nodes: &[Node], block: usize, header: Option<usize>) -> bool
    ensures { result ≡ merges_to_block nodes.now block header }
{
    match header {
        None => false,
        Some(header) => is_value(block, merge_named(merge_of(nodes, header))),
    }
}

/// Whether the header is there, and names the block as its continue target.
fn continues_to(nodes: &[Node], block: usize, header: Option<usize>) -> bool
    ensures { result ≡ continues_to_block nodes.now block header }
{
    match header {
        None => false,
        Some(header) => is_value(block, continue_named(merge_of(nodes, header))),
    }
}

/// The nearest loop or continue construct among these, from inside out.
pub fn nearest_loop(parts: &[Part]) -> Option<Part>
    ensures { result ≡ find is_loop_part parts.now }
{
    parts.iter().copied().find(|part| is_loop(*part))
}

/// The innermost construct; that of a switch is its own, which is no part of a place.
fn innermost(exit: Exit, parts: &[Part]) -> Option<Part>
    ensures { result ≡ (if is_switch_exit exit then None else slice_get parts.now 0) }
{
    if is_switch(exit) {
        None
    } else {
        parts.first().copied()
    }
}

/// The innermost construct that is no selection.
fn innermost_other(parts: &[Part]) -> Option<Part>
    ensures { result ≡ find (λ p. not (is_if_part p)) parts.now }
{
    parts.iter().copied().find(|part| !is_if(*part))
}

/// The innermost switch with no loop or continue construct before it.
fn innermost_switch(block: usize, exit: Exit, parts: &[Part]) -> Option<usize>
    ensures { result ≡ (if is_switch_exit exit then Some block else option_and_then case_switch_of (find (λ p. not (is_if_part p)) parts.now)) }
{
    if is_switch(exit) {
        Some(block)
    } else {
        case_switch(innermost_other(parts))
    }
}

/// The innermost construct round the edges of a block that lies in these constructs inside.
pub fn innermost_at(nodes: &[Node], block: usize, parts: &[Part]) -> Option<Part>
    requires inside { block < length nodes.now }
    requires parts { parts.now ≡ inner_of nodes.now block }
    ensures { result ≡ innermost_of nodes.now block }
{
    innermost(nodes[block].exit, parts)
}

/// The innermost switch round the edges of a block that lies in these constructs inside, with no loop
/// between.
pub fn switch_at(nodes: &[Node], block: usize, parts: &[Part]) -> Option<usize>
    requires inside { block < length nodes.now }
    requires parts { parts.now ≡ inner_of nodes.now block }
    ensures { result ≡ innermost_switch_of nodes.now block }
{
    innermost_switch(block, nodes[block].exit, parts)
}

/// What is round the edges of a block that lies in these constructs inside.
fn origin_of(nodes: &[Node], block: usize, parts: &[Part]) -> Origin
    requires inside { block < length nodes.now }
    requires parts { parts.now ≡ inner_of nodes.now block }
    ensures { IsOrigin nodes.now block result }
{
    Origin {
        block,
        nearest: nearest_loop(parts),
        innermost: innermost_at(nodes, block, parts),
        switch: switch_at(nodes, block, parts),
    }
}

/// The switch of a case target.
fn case_of(role: Role) -> Option<usize>
    ensures { result ≡ case_of_role role }
{
    match role {
        Role::Case(switch) => Some(switch),
        Role::First | Role::Merge(_) | Role::Continue(_) | Role::Inside(_) => None,
    }
}

/// The parent of a block that is no merge block and no continue target.
fn entered_from(role: Role) -> Option<usize>
    ensures { result ≡ entered_from_role role }
{
    match role {
        Role::Case(block) | Role::Inside(block) => Some(block),
        Role::First | Role::Merge(_) | Role::Continue(_) => None,
    }
}

/// Whether the block is the nearest loop's header, and the edge leads there from the continue
/// construct, or from a loop of which the header is the continue target.
#[tactic(auto, using(crate::proofs::Origins::origin_rules))]
fn is_back(nodes: &[Node], origin: &Origin, to: usize) -> bool
    requires { IsOrigin nodes.now origin.now.block origin.now }
    ensures { result ≡ is_back_edge nodes.now origin.now.block to }
{
    is_value(to, loop_header(origin.nearest))
        && (is_value(to, continue_header(origin.innermost))
            || is_value(to, continue_named(merge_of(nodes, to))))
}

/// Whether the block is another than the header, and the continue target of the nearest loop, in whose
/// body the edge begins.
#[tactic(auto, using(crate::proofs::Origins::origin_rules))]
fn is_continue(nodes: &[Node], origin: &Origin, to: usize) -> bool
    requires { IsOrigin nodes.now origin.now.block origin.now }
    ensures { result ≡ is_continue_edge nodes.now origin.now.block to }
{
    let header = body_header(origin.nearest);
    continues_to(nodes, to, header) && !is_value(to, header)
}

/// Whether the block is the nearest loop's merge block.
#[tactic(auto, using(crate::proofs::Origins::origin_rules))]
fn is_break(nodes: &[Node], origin: &Origin, to: usize) -> bool
    requires { IsOrigin nodes.now origin.now.block origin.now }
    ensures { result ≡ is_break_edge nodes.now origin.now.block to }
{
    merges_to(nodes, to, loop_header(origin.nearest))
}

/// Whether the block is the innermost switch's merge block.
#[tactic(auto, using(crate::proofs::Origins::origin_rules))]
fn is_switch_break(nodes: &[Node], origin: &Origin, to: usize) -> bool
    requires { IsOrigin nodes.now origin.now.block origin.now }
    ensures { result ≡ is_switch_break_edge nodes.now origin.now.block to }
{
    merges_to(nodes, to, origin.switch)
}

/// Whether the innermost construct round the edges of the first block is a selection, and the other
/// block its merge block.
fn is_merge_edge(nodes: &[Node], block: usize, innermost: Option<Part>, to: usize) -> bool
    requires { innermost ≡ innermost_of nodes.now block }
    ensures { result ≡ is_merge nodes.now block to }
{
    merges_to(nodes, to, if_header(innermost))
}

/// Whether the innermost construct round the edges of the first block is a case construct, and the
/// other block, which has this role, another case target of its switch.
pub fn is_fall(nodes: &[Node], block: usize, innermost: Option<Part>, to: usize, role: Role) -> bool
    requires innermost { innermost ≡ innermost_of nodes.now block }
    requires role { role ≡ role_of nodes.now to }
    ensures { result ≡ is_fall_edge nodes.now block to }
{
    are_same(case_switch(innermost), case_of(role)) && !is_value(to, case_target(innermost))
}

/// Whether the block, which has this role, is no merge block and no continue target, and the edge
/// begins at its parent.
pub fn is_enter(nodes: &[Node], block: usize, to: usize, role: Role) -> bool
    requires role { role ≡ role_of nodes.now to }
    ensures { result ≡ is_enter_edge nodes.now block to }
{
    is_value(block, entered_from(role))
}

/// The kind of an edge that enters no block and merges no selection, where it has one.
#[inline(always)]
#[tactic(auto, using(crate::proofs::Origins::origin_rules, crate::proofs::Origins::outer_rules))]
fn outer_kind(nodes: &[Node], origin: &Origin, to: usize, role: Role) -> Option<EdgeKind>
    requires origin { IsOrigin nodes.now origin.now.block origin.now }
    requires role { role ≡ role_of nodes.now to }
    ensures { MatchOption result (has_outer_kind nodes.now origin.now.block to ≡ false) (λ kind. has_kind nodes.now origin.now.block to kind ≡ true) }
{
    if is_switch_break(nodes, origin, to) {
        Some(EdgeKind::SwitchBreak)
    } else if is_break(nodes, origin, to) {
        Some(EdgeKind::Break)
    } else if is_continue(nodes, origin, to) {
        Some(EdgeKind::Continue)
    } else if is_back(nodes, origin, to) {
        Some(EdgeKind::Back)
    } else if is_fall(nodes, origin.block, origin.innermost, to, role) {
        Some(EdgeKind::Fall)
    } else {
        None
    }
}

/// The kind of the edge from a block that lies in these constructs inside to a block with this role,
/// where it has one.
#[inline(always)]
#[tactic(auto, using(crate::proofs::Origins::kind_rules))]
pub fn kind_of(
    nodes: &[Node],
    block: usize,
    parts: &[Part],
    to: usize,
    role: Role,
) -> Option<EdgeKind>
    requires inside { block < length nodes.now }
    requires parts { parts.now ≡ inner_of nodes.now block }
    requires role { role ≡ role_of nodes.now to }
    ensures { MatchOption result (has_some_kind nodes.now block to ≡ false) (λ kind. has_kind nodes.now block to kind ≡ true) }
{
    if is_enter(nodes, block, to, role) {
        return Some(EdgeKind::Enter);
    }
    if is_merge_edge(nodes, block, innermost_at(nodes, block, parts), to) {
        return Some(EdgeKind::Merge);
    }
    outer_kind(nodes, &origin_of(nodes, block, parts), to, role)
}
