// The types of operations on the components of vectors.
ghost use Rattle.std.specs.Prelude.{◌≡◌, option_and_then, length};
ghost use Rattle.std.specs.List.{list_any};
ghost use Rattle.profile_rules.specs.TypeRows.{component, size, is_not as is_not_number};
ghost use Rattle.profile_rules.specs.ValueRules.{breaks_t8_extract, breaks_t8_insert, breaks_t9, has_other_components as has_others, has_other_sizes as has_sizes, is_other_component as is_another_component, are_other_types as are_others, is_out_of as is_past, some_out_of as some_past};
ghost use Rattle.type_rules.specs.Scopes.{types};

use crate::numbers::behind;
use crate::scope::Scope;
use spv_module::Inst;
use spv_ops::Op;

/// The component type of a vector type that is known.
fn component_if(scope: &Scope, ty: Option<u32>) -> Option<u32>
    ensures { result ≡ option_and_then (component scope.now.m.globals) ty }
{
    scope.component(ty?)
}

/// The number of its components.
fn size_if(scope: &Scope, ty: Option<u32>) -> Option<u32>
    ensures { result ≡ option_and_then (size scope.now.m.globals) ty }
{
    scope.size(ty?)
}

/// T8: OpVectorExtractDynamic.
pub fn is_extract_dynamic_broken(scope: &Scope, inst: &Inst) -> bool
    ensures { result ≡ breaks_t8_extract scope.now.m.globals (types scope.now) inst.now }
{
    let vector = inst.operand(0);
    scope.value_fails(Op::TypeVector, vector)
        || scope.value_fails(Op::TypeInt, inst.operand(1))
        || match component_if(scope, scope.type_of(vector)) {
            Some(component) => scope.differ(inst.ty, component),
            None => false,
        }
}

/// Whether a value is not of the component type of a vector type.
fn is_other_component(scope: &Scope, ty: u32, id: u32) -> bool
    ensures { result ≡ is_another_component scope.now.m.globals (types scope.now) ty id }
{
    match scope.component(ty) {
        Some(component) => scope.is_other(component, id),
        None => false,
    }
}

/// T8: OpVectorInsertDynamic.
pub fn is_insert_dynamic_broken(scope: &Scope, inst: &Inst) -> bool
    ensures { result ≡ breaks_t8_insert scope.now.m.globals (types scope.now) inst.now }
{
    scope.fails(Op::TypeVector, inst.ty)
        || scope.value_fails(Op::TypeVector, inst.operand(0))
        || scope.value_fails(Op::TypeInt, inst.operand(2))
        || scope.is_other(inst.ty, inst.operand(0))
        || is_other_component(scope, inst.ty, inst.operand(1))
}

/// Whether both types are known, and are not the same.
fn are_other_types(scope: &Scope, a: Option<u32>, b: Option<u32>) -> bool
    ensures { result ≡ are_others scope.now.m.globals a b }
{
    match (a, b) {
        (Some(a), Some(b)) => scope.differ(a, b),
        _ => false,
    }
}

/// Whether a component literal is neither below n nor 0xFFFFFFFF.
fn is_out_of(n: u64, component: u32) -> bool
    ensures { result ≡ is_past n component }
{
    u64::from(component) >= n && component != u32::MAX
}

fn has_out_of(n: u64, components: &[u32]) -> bool
    ensures { result ≡ list_any (is_past n) components.now }
{
    components.iter().any(|component| is_out_of(n, *component))
}

/// Whether a component literal is past the components of two vectors.
fn some_out_of(first: Option<u32>, second: Option<u32>, components: &[u32]) -> bool
    ensures { result ≡ some_past first second components.now }
{
    match (first, second) {
        (Some(a), Some(b)) => has_out_of(u64::from(a) + u64::from(b), components),
        _ => false,
    }
}

/// Whether the component types of a shuffle are not the same.
fn has_other_components(scope: &Scope, ty: u32, first: Option<u32>, second: Option<u32>) -> bool
    ensures { result ≡ has_others scope.now.m.globals ty first second }
{
    let result = scope.component(ty);
    let a = component_if(scope, first);
    let b = component_if(scope, second);
    are_other_types(scope, result, a)
        || are_other_types(scope, result, b)
        || are_other_types(scope, a, b)
}

/// Whether the sizes of a shuffle do not fit.
fn has_other_sizes(
    scope: &Scope,
    ty: u32,
    first: Option<u32>,
    second: Option<u32>,
    components: &[u32],
) -> bool
    ensures { result ≡ has_sizes scope.now.m.globals ty first second components.now }
{
    is_not_count(components, scope.size(ty))
        || some_out_of(size_if(scope, first), size_if(scope, second), components)
}

/// Whether there are not so many components.
fn is_not_count(components: &[u32], size: Option<u32>) -> bool
    ensures { result ≡ is_not_number (length components.now) size }
{
    match size {
        Some(size) => size as usize != components.len(),
        None => false,
    }
}

/// T9: OpVectorShuffle.
pub fn is_shuffle_broken(scope: &Scope, inst: &Inst) -> bool
    ensures { result ≡ breaks_t9 scope.now.m.globals (types scope.now) inst.now }
{
    let first = scope.type_of(inst.operand(0));
    let second = scope.type_of(inst.operand(1));
    scope.fails(Op::TypeVector, inst.ty)
        || scope.value_fails(Op::TypeVector, inst.operand(0))
        || scope.value_fails(Op::TypeVector, inst.operand(1))
        || has_other_components(scope, inst.ty, first, second)
        || has_other_sizes(scope, inst.ty, first, second, behind(inst, 2))
}
