// The expressions of what is read by the same everywhere.
ghost use Rattle.std.specs.Prelude.{◌≡◌, ◌==◌, ℕ, None, Some, IfOk, OnOk, option_map, if◌then◌else◌};
ghost use Rattle.glsl_ast.specs.View.{expr_of};
ghost use Rattle.id_map.specs.Entries.{id_place};
ghost use Rattle.expr_forward.specs.Globals.{global_in, place_in};

use glsl_ast::Expr;
use id_map::PlaceMap;
use spv_module::Id;
use spv_words::Memory;
use std::alloc::Global;

/// The expressions by which constants and built-in variables are read, by their ids.
#[derive(Drop)]
pub struct Globals {
    alloc: Global,
    // the bound of the ids, and for about how many there is to be room
    bound: u32,
    count: usize,
    // the place of the expression that was last put for an id, from the first one on
    places: Option<PlaceMap>,
    // the expressions in the order in which they were put, each with its id
    exprs: Vec<(u32, Expr)>,
}

/// The place that is noted for an id.
#[inline(always)]
fn place_of(places: &Option<PlaceMap>, id: u32) -> Option<usize>
    ensures { result ≡ place_in places.now id }
{
    match places {
        Some(places) => places.get(id),
        None => None,
    }
}

impl Globals {
    /// No expressions; with the first one comes room for those of about so many globals of a module whose ids are below a bound.
    pub fn new(alloc: Global, bound: u32, count: usize) -> Globals
        ensures { (id : ℕ) → global_in result id ≡ None }
    {
        Globals {
            alloc,
            bound,
            count,
            places: None,
            exprs: Vec::new(alloc),
        }
    }

    /// The places that are noted.
    fn taken_places(&mut self) -> Result<PlaceMap, Memory>
        ensures places { IfOk result (λ places. (id : ℕ) → id_place places id ≡ place_in self.old.places id) }
        ensures exprs { self.new.exprs ≡ self.old.exprs }
    {
        match self.places.take() {
            Some(places) => Ok(places),
            // what is asked for is mostly an id of a function
            None => Ok(PlaceMap::below(self.alloc, self.bound, self.count.saturating_mul(4))?),
        }
    }

    /// Notes the place of an id.
    fn note(&mut self, id: u32, place: usize) -> Result<(), Memory>
        ensures places { OnOk result ((other : ℕ) → place_in self.new.places other ≡ (if id == other then Some place else place_in self.old.places other)) }
        ensures exprs { OnOk result (self.new.exprs ≡ self.old.exprs) }
    {
        let mut places = self.taken_places()?;
        places.insert(id, place)?;
        self.places = Some(places);
        Ok(())
    }

    /// Puts the expression of an id, in place of one that it had. There is an error only for want of memory.
    pub fn put(&mut self, id: Id, expr: Expr) -> Result<(), Memory>
        ensures { OnOk result ((other : ℕ) → global_in self.new other ≡ (if id.0 == other then Some (expr_of expr) else global_in self.old other)) }
    {
        let place = self.exprs.len();
        self.exprs.push((id.0, expr))?;
        self.note(id.0, place)
    }

    /// What was last put for an id: `None` exactly where nothing was.
    pub fn of(&self, id: Id) -> Option<&Expr>
        ensures { option_map (λ e. expr_of e.now) result ≡ global_in self.now id.0 }
    {
        let place = place_of(&self.places, id.0)?;
        let (of, expr) = self.exprs.get(place)?;
        if *of == id.0 { Some(expr) } else { None }
    }
}
