// What an invocation is told: the sizes of buffers, and the values of built-in variables.
ghost use Rattle.std.specs.Prelude.{◌≡◌, ◌-◌, ◌/◌, option_map, find};
ghost use Rattle.std.specs.Option.{option_copied};
ghost use Rattle.spv_types.specs.View.{value_of};
ghost use Rattle.group_items.specs.Sides.{bytes_in, has_keys, told_of, IsWhole};
ghost use Rattle.module_semantics.specs.Accesses.{built_in_value as built_in_value_of};

use group_items::Invocation;
use spv_module::Value;
use spv_ops::BuiltIn;

fn has_both(size: &(u32, u32, u32), set: u32, binding: u32) -> bool
    ensures { result ≡ has_keys set binding size.now }
{
    size.0 == set && size.1 == binding
}

fn size_of(sizes: &[(u32, u32, u32)], set: u32, binding: u32) -> Option<&(u32, u32, u32)>
    ensures { option_copied result ≡ find (has_keys set binding) sizes.now }
{
    sizes.iter().find(|size| has_both(*size, set, binding))
}

/// The bytes of a buffer, by its descriptor set and binding; 0 of one that is not listed.
pub fn bytes_of(sizes: &[(u32, u32, u32)], set: u32, binding: u32) -> u32
    ensures { result ≡ bytes_in sizes.now set binding }
{
    match size_of(sizes, set, binding) {
        None => 0,
        Some(size) => size.2,
    }
}

/// So many times a number goes into another: 0 times where it is 0.
pub fn quotient(whole: u32, part: u32) -> u32
    ensures { result ≡ whole / part }
{
    if part == 0 { 0 } else { whole / part }
}

/// The value of a built-in variable (SPIR-V 1.6, section 3.21); the size of workgroups is a constant.
pub fn built_in_value(inv: &Invocation, built_in: BuiltIn) -> Option<&Value>
    requires { IsWhole inv.now }
    ensures { option_map (λ v. value_of v.now) result ≡ built_in_value_of (told_of inv.now) built_in }
{
    let values = inv.builtins.as_slice();
    match built_in {
        BuiltIn::NumWorkgroups => values.get(0),
        BuiltIn::WorkgroupId => values.get(1),
        BuiltIn::LocalInvocationId => values.get(2),
        BuiltIn::GlobalInvocationId => values.get(3),
        BuiltIn::LocalInvocationIndex => values.get(4),
        BuiltIn::WorkgroupSize => None,
    }
}
