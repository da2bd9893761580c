// The paths of a function's pointers.
ghost use Rattle.std.specs.Prelude.{◌≡◌, ◌<◌, IfOk, Some, flat_map, length};
ghost use Rattle.few_law.specs.Short.{IsShort};
ghost use Rattle.access_paths.specs.Ways.{path as path_of};
ghost use Rattle.access_paths.specs.Links.{AreBack, IsIn, link_steps, steps_to as steps_to_link, way_in};
ghost use Rattle.access_paths.specs.State.{plain, paths_of};

use crate::indexes::add_steps;
use crate::link::Link;
use crate::links::Links;
use crate::{Step, forms};
use spv_index::Locals;
use spv_module::{Function, Id, Module};
use spv_words::Memory;
use std::alloc::{AllocError, Global};
use std::marker::Model;
use std::slice::from_ref;

/// The paths of a function's pointers. Contracts see the globals of the module and the function.
#[derive(Drop)]
pub struct Paths<'a> {
    source: &'a Module,
    function: &'a Function,
    links: Links<'a>,
}

impl<'a> Model for Paths<'a> {
    ghost use Rattle.access_paths.specs.State.{PathsState};

    ghost Value = { PathsState };

    ghost use Rattle.access_paths.specs.Links.{AreWays};

    ghost view = { λ p. record { globals = p.source.now.globals; function = p.function.now } };

    ghost invariant = { λ p. AreWays p.source.now.globals p.function.now p.links };
}

/// The links of a way, the first of them first.
fn links_to<'a>(
    alloc: Global,
    links: &[Link<'a>],
    last: Option<usize>,
) -> Result<Vec<Link<'a>>, AllocError>
    requires back { AreBack links.now }
    requires within { IsIn (length links.now) last }
    ensures { IfOk result (λ way. way.items ≡ way_in links.now last) }
{
    let mut way = Vec::new(alloc);
    let mut next = last;
    while let Some(place) = next {
        let link = links[place];
        way.push(link)?;
        next = link.before;
    }
    way.reverse();
    Ok(way)
}

/// The steps of these links, printed in the block at a place.
fn steps_of(
    alloc: Global,
    module: &Module,
    links: &[Link],
    printed: usize,
) -> Result<Vec<Step>, Memory>
    ensures { IfOk result (λ steps. steps.items ≡ flat_map (link_steps «module».now.globals printed) links.now) }
{
    let mut steps = Vec::new(alloc);
    for link in links {
        add_steps(&mut steps, module, link, printed)?;
    }
    Ok(steps)
}

/// The steps of the way to a link, printed in the block at a place.
fn steps_to(
    alloc: Global,
    module: &Module,
    links: &[Link],
    place: usize,
    printed: usize,
) -> Result<Vec<Step>, Memory>
    requires back { AreBack links.now }
    requires within { place < length links.now }
    ensures { IfOk result (λ steps. steps.items ≡ steps_to_link «module».now.globals printed links.now (Some place)) }
{
    let link = links[place];
    match link.before {
        None => steps_of(alloc, module, from_ref(&link), printed),
        Some(_) => {
            let way = links_to(alloc, links, Some(place))?;
            steps_of(alloc, module, &way, printed)
        }
    }
}

/// The steps of the way by its last link, printed in the block at a place.
#[tactic(auto, using(crate::proofs::Pushes::no_way))]
fn steps_by(
    alloc: Global,
    module: &Module,
    links: &[Link],
    last: Option<usize>,
    printed: usize,
) -> Result<Vec<Step>, Memory>
    requires back { AreBack links.now }
    requires within { IsIn (length links.now) last }
    ensures { IfOk result (λ steps. steps.items ≡ steps_to_link «module».now.globals printed links.now last) }
{
    match last {
        None => Ok(Vec::new(alloc)),
        Some(place) => steps_to(alloc, module, links, place, printed),
    }
}

impl<'a> Paths<'a> {
    /// The paths of the pointers of the function that these are the locals of. There is an error only
    /// for want of memory.
    pub fn of(alloc: Global, module: &'a Module, locals: &Locals<'a>) -> Result<Paths<'a>, Memory>
        requires { IsShort locals.now }
        ensures { IfOk result (λ paths. paths ≡ paths_of «module».now.globals locals.now) }
    {
        Ok(Paths {
            source: module,
            function: locals.function(),
            links: Links::of(alloc, module, locals)?,
        })
    }

    /// The path of a pointer, printed in the block at a place. There is an error only for want of
    /// memory.
    pub fn path(&self, alloc: Global, block: usize, pointer: Id) -> Result<forms::Path, Memory>
        ensures { IfOk result (λ p. plain p ≡ path_of self.now.globals self.now.function block pointer.0) }
    {
        let known = self.links.get(pointer.0);
        Ok(forms::Path {
            base: Id(known.base),
            steps: steps_by(alloc, self.source, &self.links.links, known.last, block)?,
        })
    }
}

/// The path of a pointer of a function, printed in the block at a place: from the variable or the
/// pointer parameter, through each OpAccessChain and OpInBoundsAccessChain, down to the pointer
/// (SPIR-V 1.6, "Memory Instructions"). The types through which it goes are those that the base of
/// each chain points to. An index that is no constant, of a chain in another block, is captured:
/// its id may have another value where the path is printed. There is an error only for want of
/// memory.
///
/// Each call goes over the whole function; for many pointers there is `Paths`.
pub fn path<'a>(
    alloc: Global,
    module: &'a Module,
    f: &'a Function,
    block: usize,
    pointer: Id,
) -> Result<forms::Path, Memory>
    requires { IsShort f.now }
    ensures { IfOk result (λ p. plain p ≡ path_of «module».now.globals f.now block pointer.0) }
{
    let locals = Locals::of(alloc, f)?;
    Paths::of(alloc, module, &locals)?.path(alloc, block, pointer)
}
