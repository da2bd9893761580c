// The size of workgroups under a specialization.
ghost use Rattle.std.specs.Prelude.{◌≡◌, map, slice_index};
ghost use Rattle.std.specs.BTreeMap.{get};
ghost use Rattle.std.specs.Ordering.{nat_cmp};
ghost use Rattle.dispatch_case.specs.Three.{triple_of};
ghost use Rattle.run_module.specs.Runs.{part_word};

use constant_values::Special;
use profile_rules::SizePart;

fn word_of(part: SizePart, special: &Special) -> u32
    ensures { result ≡ part_word (get nat_cmp special.now) part }
{
    match part {
        SizePart::Fixed(number) => number,
        SizePart::Spec { id, default } => special.get(&id).copied().unwrap_or(default),
    }
}

fn word_at(parts: &[SizePart], special: &Special, axis: usize) -> u32
    ensures { result ≡ slice_index (map (part_word (get nat_cmp special.now)) parts.now) axis }
{
    match parts.get(axis) {
        None => 0,
        Some(part) => word_of(*part, special),
    }
}

/// The numbers that the parts of a size are, on x, y and z.
pub fn size_of(parts: &[SizePart], special: &Special) -> [u32; 3]
    ensures { triple_of result ≡ triple_of (map (part_word (get nat_cmp special.now)) parts.now) }
{
    [
        word_at(parts, special, 0),
        word_at(parts, special, 1),
        word_at(parts, special, 2),
    ]
}
