// How the constants of a module are read.
ghost use Rattle.std.specs.Prelude.{◌≡◌, ◌==◌, [], find, drop, IfOk};
ghost use Rattle.std.specs.Option.{option_copied};
ghost use Rattle.std.specs.List.{list_any, position_from};
ghost use Rattle.profile_rules.specs.Constants.{given_to, spec_id as spec_id_of};
ghost use Rattle.profile_rules.specs.Entry.{is_size_composite as is_size_composite_in, is_local_size_id as is_local_size_id_of};
ghost use Rattle.constant_text.specs.SpecIds.{is_spec_id_row as is_spec_id_row_of};
ghost use Rattle.text_rules.specs.Constants.{size_ids as size_ids_of, free_spec_id as free_spec_id_of, override_word as override_word_of, has_literal as has_literal_of, reading as reading_of};

use crate::scalars::scalar_type;
use profile_rules::Given;
use spec_constants::{givens, word_given};
use spv_decor::Decor;
use spv_module::{Id, Inst, Module};
use spv_ops::{BuiltIn, Decoration, ExecutionMode, Op};
use spv_words::Memory;
use std::alloc::Global;
use std::collections::BTreeMap;
use std::marker::Model;
use text_rules::Reading;

/// How the constants of a module are read under overrides, where its entry point has a function.
/// Contracts see these three.
#[derive(Drop)]
pub struct Readings<'a> {
    pub(crate) source: &'a Module,
    decor: &'a Decor<'a>,
    // whether any id has a SpecId
    specialized: bool,
    entry: Id,
    overrides: &'a [(u32, Given)],
    given: BTreeMap<u32, Given>,
    // the ids of the parts of the size of workgroups
    parts: &'a [u32],
}

impl<'a> Model for Readings<'a> {
    ghost use Rattle.text_rules.specs.Constants.{Source};

    ghost Value = { Source };

    ghost use Rattle.constant_text.specs.Held.{IsHeld};

    ghost view = { λ r. record { of = r.source.now; entry = r.entry.0; overrides = r.overrides.now } };

    ghost invariant = { λ r. IsHeld (record { of = r.source.now; entry = r.entry.0; overrides = r.overrides.now }) r.decor.now r.specialized r.given r.parts.now };
}

/// Whether an instruction is an OpDecorate by SpecId.
fn is_spec_id_row(inst: &Inst) -> bool
    ensures { result ≡ is_spec_id_row_of inst.now }
{
    inst.op == Op::Decorate && inst.operand(1) == Decoration::SpecId.number()
}

fn has_spec_ids(heads: &[Inst]) -> bool
    ensures { result ≡ list_any is_spec_id_row_of heads.now }
{
    heads.iter().any(|inst| is_spec_id_row(inst))
}

/// Whether a constant gives the size of workgroups (SPIR-V 1.6, BuiltIn WorkgroupSize).
#[inline(always)]
fn is_size_composite(decor: &Decor, inst: &Inst) -> bool
    ensures { result ≡ is_size_composite_in decor.now inst.now }
{
    (inst.op == Op::ConstantComposite || inst.op == Op::SpecConstantComposite)
        && decor.value(Id(inst.result), Decoration::BuiltIn.number())
            == Some(BuiltIn::WorkgroupSize.number())
}

/// Whether an instruction is OpExecutionModeId LocalSizeId of a function.
fn is_local_size_id(entry: Id, inst: &Inst) -> bool
    ensures { result ≡ is_local_size_id_of entry.0 inst.now }
{
    inst.op == Op::ExecutionModeId
        && inst.operand(0) == entry.0
        && inst.operand(1) == ExecutionMode::LocalSizeId.number()
}

fn size_composite<'a>(module: &'a Module, decor: &Decor) -> Option<&'a Inst>
    ensures { option_copied result ≡ find (is_size_composite_in decor.now) «module».now.globals }
{
    module
        .globals()
        .iter()
        .find(|inst| is_size_composite(decor, *inst))
}

fn local_size_id<'a>(module: &'a Module, entry: Id) -> Option<&'a Inst>
    ensures { option_copied result ≡ find (is_local_size_id_of entry.0) «module».now.heads }
{
    module
        .heads()
        .iter()
        .find(|inst| is_local_size_id(entry, *inst))
}

fn after_two(words: &[u32]) -> &[u32]
    ensures { result.now ≡ drop 2 words.now }
{
    words.get(2..).unwrap_or(&[])
}

/// The ids of the parts of the size of workgroups, where constants give it.
fn size_ids<'a>(module: &'a Module, decor: &Decor, entry: Id) -> &'a [u32]
    requires { decor.now ≡ «module».now.heads }
    ensures { result.now ≡ size_ids_of (record { of = «module».now; entry = entry.0; overrides = [] }) }
{
    if let Some(composite) = size_composite(module, decor) {
        return composite.args.as_slice();
    }
    match local_size_id(module, entry) {
        None => &[],
        Some(mode) => after_two(mode.args.as_slice()),
    }
}

impl<'a> Readings<'a> {
    /// The readings of a module's constants, where these are its decorations. There is an error only for want of memory.
    pub fn of(
        alloc: Global,
        module: &'a Module,
        decor: &'a Decor<'a>,
        entry: Id,
        overrides: &'a [(u32, Given)],
    ) -> Result<Readings<'a>, Memory>
        requires { decor.now ≡ «module».now.heads }
        ensures { IfOk result (λ r. r ≡ record { of = «module».now; entry = entry.0; overrides = overrides.now }) }
    {
        Ok(Readings {
            source: module,
            decor,
            specialized: has_spec_ids(module.heads()),
            entry,
            overrides,
            given: givens(alloc, overrides)?,
            parts: size_ids(module, decor, entry),
        })
    }

    /// The module whose constants are read.
    pub fn module(&self) -> &'a Module
        ensures { result.now ≡ self.now.of }
    {
        self.source
    }

    /// The decorations of the module.
    pub fn decor(&self) -> &'a Decor<'a>
        ensures { result.now ≡ self.now.of.heads }
    {
        self.decor
    }

    /// The function of the entry point.
    pub fn entry(&self) -> Id
        ensures { result.0 ≡ self.now.entry }
    {
        self.entry
    }

    /// What the overrides give a SpecId.
    pub(crate) fn given(&self, spec_id: u32) -> Option<Given>
        ensures { result ≡ given_to self.now.overrides spec_id }
    {
        self.given.get(&spec_id).copied()
    }

    /// The SpecId of a constant.
    #[inline(always)]
    #[tactic(auto, using(crate::proofs::Decorated::no_spec_id))]
    fn spec_id(&self, id: Id) -> Option<u32>
        ensures { result ≡ spec_id_of self.now.of.heads id.0 }
    {
        if self.specialized {
            self.decor.value(id, Decoration::SpecId.number())
        } else {
            None
        }
    }

    /// The SpecId of a constant that is not overridden (SPIR-V 1.6, Decoration SpecId).
    #[inline(always)]
    pub fn free_spec_id(&self, id: Id) -> Option<u32>
        ensures { result ≡ free_spec_id_of self.now id.0 }
    {
        let spec_id = self.spec_id(id)?;
        match self.given(spec_id) {
            None => Some(spec_id),
            Some(_) => None,
        }
    }

    /// The word that an override gives a constant.
    pub(crate) fn override_word(&self, id: Id) -> Option<u32>
        ensures { result ≡ override_word_of self.now id.0 }
    {
        let spec_id = self.spec_id(id)?;
        match self.given(spec_id) {
            None => None,
            Some(given) => Some(word_given(given)),
        }
    }

    /// A constant of a scalar type that is not calculated has a literal.
    #[inline(always)]
    #[tactic(auto, using(crate::proofs::Shapes::scalar_rules))]
    fn has_literal(&self, inst: &Inst) -> bool
        ensures { result ≡ has_literal_of self.now inst.now }
    {
        scalar_type(self.source, inst.ty).is_some() && inst.op != Op::SpecConstantOp
    }

    fn part(&self, id: u32) -> Option<usize>
        ensures { result ≡ position_from (λ part. part == id) 0 (size_ids_of self.now) }
    {
        self.parts.iter().position(|part| *part == id)
    }

    /// How the constant that an instruction defines is read. The composite that gives the size of workgroups is
    /// `gl_WorkGroupSize`. Another has a literal, where it is a scalar, is not calculated, and has no SpecId or is overridden. One
    /// with a SpecId that is not overridden is a component of `gl_WorkGroupSize`, where it is such a part, and else has a name.
    #[inline(always)]
    pub fn reading(&self, inst: &Inst) -> Reading
        ensures { result ≡ reading_of self.now inst.now }
    {
        if is_size_composite(self.decor, inst) {
            return Reading::GroupSize;
        }
        if self.free_spec_id(Id(inst.result)).is_none() {
            return if self.has_literal(inst) {
                Reading::Plain
            } else {
                Reading::Named
            };
        }
        match self.part(inst.result) {
            None => Reading::Named,
            Some(axis) => Reading::GroupSizePart(axis),
        }
    }
}
