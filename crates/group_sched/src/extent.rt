// How many invocations there are, and where each stands.
ghost use Rattle.std.specs.Prelude.{◌≡◌, ◌<◌, ◌≤◌, ◌*◌, MatchOption};
ghost use Rattle.dispatch_semantics.specs.Grid.{product, along as along_of, global_id};
ghost use Rattle.dispatch_case.specs.Three.{triple_of};
ghost use Rattle.group_sched.specs.Sides.{AreAbove, AreSmall, IsExtent, global_of};

use group_items::MOST_INVOCATIONS;

/// How many invocations a workgroup has, how many workgroups there are, and how many invocations in all.
#[derive(Clone, Copy, Debug, PartialEq, Eq)]
pub struct Extent {
    pub group: usize,
    pub groups: usize,
    pub count: usize,
}

/// So many times a number, if it is at most 1024.
fn bounded(factor: usize, n: usize) -> Option<usize>
    ensures { MatchOption result (1024 < factor * n) (λ m. (m ≡ factor * n) × (m ≤ 1024)) }
{
    match factor.checked_mul(n) {
        None => None,
        Some(product) => if product <= MOST_INVOCATIONS {
            Some(product)
        } else {
            None
        },
    }
}

/// How many cells there are in a box of these sides, if at most 1024.
#[tactic(auto, using(crate::proofs::Counts::count_rules))]
fn volume(sides: [u32; 3]) -> Option<usize>
    requires { AreAbove (triple_of sides) }
    ensures { MatchOption result (1024 < product (triple_of sides)) (λ m. (m ≡ product (triple_of sides)) × (m ≤ 1024)) }
{
    match bounded(sides[1] as usize, sides[2] as usize) {
        None => None,
        Some(plane) => bounded(sides[0] as usize, plane),
    }
}

/// The invocations of so many workgroups of this size, if they are at most 1024.
#[tactic(auto, using(crate::proofs::Counts::count_rules))]
pub fn extent_of(groups: [u32; 3], size: [u32; 3]) -> Option<Extent>
    requires groups { AreAbove (triple_of groups) }
    requires size { AreAbove (triple_of size) }
    ensures { MatchOption result (1024 < product (triple_of groups) * product (triple_of size)) (IsExtent (triple_of groups) (triple_of size)) }
{
    match volume(size) {
        None => None,
        Some(group) => match volume(groups) {
            None => None,
            Some(groups) => extent_by(groups, group),
        },
    }
}

fn extent_by(groups: usize, group: usize) -> Option<Extent>
    ensures { MatchOption result (1024 < groups * group) (λ e. (e.group ≡ group) × (e.groups ≡ groups) × (e.count ≡ groups * group) × (e.count ≤ 1024)) }
{
    match bounded(groups, group) {
        None => None,
        Some(count) => Some(Extent {
            group,
            groups,
            count,
        }),
    }
}

fn narrow(n: usize) -> u32
    requires { n ≤ 1024 }
    ensures { result ≡ n }
{
    n as u32
}

/// What a number stands for on three axes, x first.
#[tactic(auto, using(crate::proofs::Counts::count_rules))]
pub fn along(sides: [u32; 3], n: usize) -> [u32; 3]
    requires above { AreAbove (triple_of sides) }
    requires small { AreSmall (triple_of sides) }
    requires few { n ≤ 1024 }
    ensures is { triple_of result ≡ along_of (triple_of sides) n }
    ensures small { AreSmall (triple_of result) }
{
    let x = sides[0] as usize;
    let y = sides[1] as usize;
    [narrow(n % x), narrow(n / x % y), narrow(n / (x * y))]
}

fn on_axis(group: u32, size: u32, own: u32) -> u32
    requires group { group ≤ 1024 }
    requires size { size ≤ 1024 }
    requires own { own ≤ 1024 }
    ensures { result ≡ global_id group size own }
{
    group * size + own
}

/// Where an invocation stands among all: from its workgroup, the size of these, and its place in it.
pub fn global(group: [u32; 3], size: [u32; 3], own: [u32; 3]) -> [u32; 3]
    requires group { AreSmall (triple_of group) }
    requires size { AreSmall (triple_of size) }
    requires own { AreSmall (triple_of own) }
    ensures { triple_of result ≡ global_of (triple_of group) (triple_of size) (triple_of own) }
{
    [
        on_axis(group[0], size[0], own[0]),
        on_axis(group[1], size[1], own[1]),
        on_axis(group[2], size[2], own[2]),
    ]
}
