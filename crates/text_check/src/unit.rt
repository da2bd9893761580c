// The whole text.
ghost use Rattle.std.specs.Prelude.{◌≡◌, ◌&&◌, IsTrue, IfOk};
ghost use Rattle.std.specs.List.{list_all};
ghost use Rattle.glsl_ast.specs.View.{unit_of};
ghost use Rattle.glsl_grammar.specs.InGrammar.{IsInGrammar};
ghost use Rattle.text_check.specs.Items as test;
ghost use Rattle.text_check.specs.Statements.{has_some};

use crate::items::are_items;
use crate::types::is_spelled;
use glsl_ast::{Size, Unit};
use spv_words::Memory;
use std::alloc::Global;

/// Whether the part of the workgroup's size is of axis x, y or z.
fn is_size(size: &Size) -> bool
    ensures { result ≡ test.is_size size.now }
{
    size.axis < 3 && is_spelled(size.number)
}

fn each_size(sizes: &[Size]) -> bool
    ensures { result ≡ list_all test.is_size sizes.now }
{
    sizes.iter().all(is_size)
}

/// Whether there are sizes, and each is in the grammar.
fn are_sizes(sizes: &[Size]) -> bool
    ensures { result ≡ (has_some sizes.now && list_all test.is_size sizes.now) }
{
    !sizes.is_empty() && each_size(sizes)
}

/// Whether the unit is in the grammar, so that its text reads back as the unit: each name is a word that the grammar has
/// no other meaning for, each struct is declared before its use and names nothing else, and no list is empty that may
/// not be (GLSL 4.60, chapter 9). There is an error only where there is no memory for the names of the structs.

pub fn is_in_grammar(alloc: Global, unit: &Unit) -> Result<bool, Memory>
    ensures tested { IfOk result (λ b. b ≡ test.is_unit (unit_of unit.now)) }
    ensures grammar { IfOk result (λ b. IsTrue b → IsInGrammar (unit_of unit.now)) }
{
    let sizes = are_sizes(&unit.sizes);
    let items = are_items(alloc, &unit.items)?;
    Ok(sizes && items)
}
