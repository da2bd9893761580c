// The names of a text, and its items before the functions.
ghost use Rattle.std.specs.Prelude.{◌≡◌, [], true, flat_map, IfOk, map};
ghost use Rattle.std.specs.List.{All, list_any};
ghost use Rattle.text_items.specs.Asked.{is_asked};
ghost use Rattle.few_law.specs.Short.{HasFewArgs};
ghost use Rattle.text_items.specs.State.{functions_at};
ghost use Rattle.function_plan.specs.Claimed.{claimed_by};
ghost use Rattle.unit_text.specs.Reached.{reached_in, IsHead};
ghost use Rattle.function_text.specs.Live.{types_in, mentions_in};

use crate::plans::functions_of;
use constant_text::Readings;
use function_plan::FunctionPlan;
use function_text::add_live;
use glsl_ast::Decl;
use name_alloc::{Names, names};
use spv_module::Function;
use spv_words::Memory;
use std::alloc::Global;
use text_items::{Live, Written, asks_live, claims, declarations};

/// The names of a text, and its items before the functions.
#[derive(Drop)]
pub struct Head {
    pub names: Names,
    pub items: Vec<Decl>,
}

/// Nothing of live instructions.
fn no_live(alloc: Global) -> Live
    ensures types { result.types.items ≡ [] }
    ensures mentions { result.mentions.items ≡ [] }
{
    Live {
        types: Vec::new(alloc),
        mentions: Vec::new(alloc),
    }
}

/// The types of the live instructions of planned functions, and the ids that these mention.
fn live_of(alloc: Global, plans: &[FunctionPlan]) -> Result<Live, Memory>
    ensures types { IfOk result (λ live. live.types.items ≡ flat_map types_in plans.now) }
    ensures mentions { IfOk result (λ live. live.mentions.items ≡ flat_map mentions_in plans.now) }
{
    let mut live = no_live(alloc);
    for plan in plans {
        add_live(&mut live, plan)?;
    }
    Ok(live)
}

/// So it is, where what is written may depend on live instructions; else there is nothing.
fn live_if_asked(alloc: Global, readings: &Readings, plans: &[FunctionPlan]) -> Result<Live, Memory>
    ensures types { IfOk result (λ live. list_any (is_asked readings.now) readings.now.of.globals ≡ true → live.types.items ≡ flat_map types_in plans.now) }
    ensures mentions { IfOk result (λ live. list_any (is_asked readings.now) readings.now.of.globals ≡ true → live.mentions.items ≡ flat_map mentions_in plans.now) }
{
    if asks_live(readings) {
        live_of(alloc, plans)
    } else {
        Ok(no_live(alloc))
    }
}

/// The head of a text with these functions.
fn head_with<'a>(
    alloc: Global,
    readings: &Readings<'a>,
    plans: &[FunctionPlan<'a>],
    functions: &[&'a Function],
) -> Result<Head, Memory>
    requires { All HasFewArgs readings.now.of.globals }
    ensures { IfOk result (IsHead readings.now (record { functions = functions_at functions.now; types = flat_map types_in plans.now; mentions = flat_map mentions_in plans.now }) (map claimed_by plans.now)) }
{
    let live = live_if_asked(alloc, readings, plans)?;
    let written = Written::of(alloc, readings, functions, &live)?;
    let claims = claims(alloc, &written, plans)?;
    let names = names(alloc, claims.as_slice())?;
    let items = declarations(alloc, &written, &names)?;
    Ok(Head { items, names })
}

/// The head of a text with planned functions.
pub fn head_of<'a>(
    alloc: Global,
    readings: &Readings<'a>,
    plans: &[FunctionPlan<'a>],
) -> Result<Head, Memory>
    requires { All HasFewArgs readings.now.of.globals }
    ensures { IfOk result (IsHead readings.now (reached_in plans.now) (map claimed_by plans.now)) }
{
    let functions = functions_of(alloc, plans)?;
    head_with(alloc, readings, plans, functions.as_slice())
}
