// Regions.
use structure_rules::EdgeKind;

/// How a region ends: with an edge from one block to another, and what the edge does; with a block that
/// returns; with a block that ends in OpUnreachable; or closed, where the parts of its last item end it.
/// All numbers of blocks are their indexes in the function.
#[derive(Clone, Copy, Debug, PartialEq, Eq)]
pub enum Exit {
    Edge(usize, usize, EdgeKind),
    Return(usize),
    Lost(usize),
    Closed,
}

/// Items in the order in which control goes through them, and how the last one ends.
#[cycle(region)]
#[derive(Drop)]
pub struct Region {
    pub items: Vec<Item>,
    pub exit: Exit,
}

/// A part of a region.
///
/// `Plain` is a block that ends in OpBranch or leaves the function. `If` is a block that ends in
/// OpBranchConditional with OpSelectionMerge, and `Loose` one without; `taken` begins with the edge to its
/// first target, and `other` with that to its second. `Loop` names the header of a loop, which itself
/// stands first in `body`; `cont` is the continue construct, where it is reached and is not the header
/// alone. `Switch` is a block that ends in OpSwitch, with a group for each of its targets in the order in
/// which these stand in the function (SPIR-V 1.6, section 2.11).
#[cycle(region)]
#[derive(Drop)]
pub enum Item {
    Plain(usize),
    If {
        head: usize,
        taken: Box<Region>,
        other: Box<Region>,
    },
    Loose {
        head: usize,
        taken: Box<Region>,
        other: Box<Region>,
    },
    Loop {
        head: usize,
        cont: Option<Box<Region>>,
        body: Box<Region>,
    },
    Switch {
        head: usize,
        groups: Vec<Group>,
    },
}

/// What an OpSwitch leads to by one of its targets: the literals with this target in the order of the
/// operands, and whether it is the default.
#[cycle(region)]
#[derive(Drop)]
pub struct Group {
    pub target: usize,
    pub labels: Vec<u32>,
    pub default: bool,
    pub body: Region,
}
