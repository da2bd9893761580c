// Memory qualifiers (GLSL 4.60, section 4.10).
ghost use Rattle.std.specs.Prelude.{◌≡◌, IfOk, filter, is_some, map};
ghost use Rattle.spv_ops.specs.Enumerants.{decoration_number};
ghost use Rattle.spv_decor.specs.Rows.{value_of, member_value_of};
ghost use Rattle.text_rules.specs.Declarations.{qualifiers_by};

use glsl_ast::Qual;
use spv_decor::Decor;
use spv_module::Id;
use spv_ops::Decoration;
use spv_words::Memory;
use std::alloc::Global;

// In the order in which they are written.
const QUALIFIERS: [(Qual, Decoration); 5] = [
    (Qual::Coherent, Decoration::Coherent),
    (Qual::Volatile, Decoration::Volatile),
    (Qual::Restrict, Decoration::Restrict),
    (Qual::Readonly, Decoration::NonWritable),
    (Qual::Writeonly, Decoration::NonReadable),
];

/// Those of these qualifiers whose decorations an id has.
fn of_id(
    alloc: Global,
    decor: &Decor,
    id: Id,
    rows: &[(Qual, Decoration)],
) -> Result<Vec<Qual>, Memory>
    ensures { IfOk result (λ quals. quals.items ≡ map (λ q. q.0) (filter (λ q. is_some (value_of decor.now id.0 (decoration_number q.1))) rows.now)) }
{
    let mut quals = Vec::new(alloc);
    for (qual, decoration) in rows {
        if decor.value(id, decoration.number()).is_some() {
            quals.push(*qual)?;
        }
    }
    Ok(quals)
}

/// Those of these qualifiers whose decorations a member has.
fn of_member(
    alloc: Global,
    decor: &Decor,
    id: Id,
    member: u32,
    rows: &[(Qual, Decoration)],
) -> Result<Vec<Qual>, Memory>
    ensures { IfOk result (λ quals. quals.items ≡ map (λ q. q.0) (filter (λ q. is_some (member_value_of decor.now id.0 member (decoration_number q.1))) rows.now)) }
{
    let mut quals = Vec::new(alloc);
    for (qual, decoration) in rows {
        if decor
            .member_value(id, member, decoration.number())
            .is_some()
        {
            quals.push(*qual)?;
        }
    }
    Ok(quals)
}

/// The qualifiers of a variable that is a storage block, as its decorations ask for them; another has none.
pub fn variable_qualifiers(
    alloc: Global,
    decor: &Decor,
    buffer: bool,
    id: Id,
) -> Result<Vec<Qual>, Memory>
    ensures { IfOk result (λ quals. quals.items ≡ qualifiers_by buffer (λ d. is_some (value_of decor.now id.0 d))) }
{
    if buffer {
        of_id(alloc, decor, id, &QUALIFIERS)
    } else {
        Ok(Vec::new(alloc))
    }
}

/// Those of a member.
pub fn member_qualifiers(
    alloc: Global,
    decor: &Decor,
    buffer: bool,
    id: Id,
    member: u32,
) -> Result<Vec<Qual>, Memory>
    ensures { IfOk result (λ quals. quals.items ≡ qualifiers_by buffer (λ d. is_some (member_value_of decor.now id.0 member d))) }
{
    if buffer {
        of_member(alloc, decor, id, member, &QUALIFIERS)
    } else {
        Ok(Vec::new(alloc))
    }
}
