// The size of workgroups.
ghost use Rattle.std.specs.Prelude.{◌≡◌, ◌++◌, IfOk, OnOk};
ghost use Rattle.text_rules.specs.Constants.{size_now as size_now_of, sizes_by, sizes_of};

use crate::Readings;
use glsl_ast::Size;
use profile_rules::SizePart;
use spec_constants::word_given;
use spv_words::Memory;
use std::alloc::Global;

/// Adds what is written for a part of the size on an axis.
fn push_sizes(sizes: &mut Vec<Size>, axis: u8, part: SizePart) -> Result<(), Memory>
    ensures { OnOk result (sizes.new.items ≡ sizes.old.items ++ sizes_of axis part) }
{
    match part {
        SizePart::Fixed(number) => sizes.push(Size {
            axis,
            by_id: false,
            number,
        })?,
        SizePart::Spec { id, default } => {
            sizes.push(Size {
                axis,
                by_id: false,
                number: default,
            })?;
            sizes.push(Size {
                axis,
                by_id: true,
                number: id,
            })?;
        }
    }
    Ok(())
}

impl Readings<'_> {
    /// A part of the size, under the overrides.
    fn size_now(&self, part: SizePart) -> SizePart
        ensures { result ≡ size_now_of self.now.overrides part }
    {
        match part {
            SizePart::Fixed(_) => part,
            SizePart::Spec { id, .. } => match self.given(id) {
                None => part,
                Some(given) => SizePart::Fixed(word_given(given)),
            },
        }
    }

    /// What is written of the size of workgroups, where these are its parts: on each axis the number, and the SpecId of a part that may be
    /// specialized (GLSL 4.60, section 4.4.1.4). There is an error only for want of memory.
    pub fn sizes(&self, alloc: Global, parts: &[SizePart]) -> Result<Vec<Size>, Memory>
        ensures { IfOk result (λ sizes. sizes.items ≡ sizes_by self.now.overrides parts.now) }
    {
        let mut sizes = Vec::new(alloc);
        for (axis, part) in [0, 1, 2].iter().zip(parts) {
            push_sizes(&mut sizes, *axis, self.size_now(*part))?;
        }
        Ok(sizes)
    }
}
