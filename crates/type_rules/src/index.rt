// A module with what is looked up in it.
ghost use Rattle.std.specs.Prelude.{◌≡◌, ℕ, IfOk, OnOk, is_some};
ghost use Rattle.std.specs.Option.{option_copied};
ghost use Rattle.std.specs.BTreeMap.{get};
ghost use Rattle.std.specs.Ordering.{nat_cmp};
ghost use Rattle.spv_index.specs.Locals.{function_in};
ghost use Rattle.spv_index.specs.ValueTypes.{is_no_value_type};
ghost use Rattle.profile_rules.specs.Operands.{is_import as is_import_before};
ghost use Rattle.profile_rules.specs.FlowRules.{callee as function_with};
ghost use Rattle.type_rules.specs.Indexed.{AreImports, or_entry};

use spv_index::{Functions, ValueTypes};
use spv_module::{Function, Id, Inst, Module};
use spv_ops::Op;
use spv_words::Memory;
use std::alloc::{AllocError, Global};
use std::collections::BTreeMap;
use std::marker::Model;

/// Puts a value under a key that has none.
fn put_first(map: &mut BTreeMap<u32, u32>, key: u32, value: u32) -> Result<(), AllocError>
    ensures { OnOk result ((id : ℕ) → get nat_cmp map.new id ≡ or_entry (get nat_cmp map.old id) key value id) }
{
    if !map.contains_key(&key) {
        map.insert(key, value)?;
    }
    Ok(())
}

/// The word at which each import stands, by its id.
fn imports_of(alloc: Global, heads: &[Inst]) -> Result<BTreeMap<u32, u32>, AllocError>
    ensures { IfOk result (λ imports. AreImports heads.now (get nat_cmp imports)) }
{
    let mut imports = BTreeMap::new(alloc);
    for head in heads {
        if head.op == Op::ExtInstImport {
            put_first(&mut imports, head.result, head.at)?;
        }
    }
    Ok(imports)
}

/// A module, its types that are no value types, its functions and its imports by id. Contracts see
/// the module.
#[derive(Drop)]
pub struct ModuleIndex<'a> {
    source: &'a Module,
    values: ValueTypes<'a>,
    functions: Functions<'a>,
    // the word at which each import stands
    imports: BTreeMap<u32, u32>,
}

impl<'a> Model for ModuleIndex<'a> {
    ghost use Rattle.std.specs.BTreeMap.{get};
    ghost use Rattle.std.specs.Ordering.{nat_cmp};
    ghost use Rattle.spv_module.specs.State.{ModuleState};
    ghost use Rattle.type_rules.specs.Indexed.{IsIndex};

    ghost Value = { ModuleState };

    ghost view = { λ i. i.source.now };

    ghost invariant = { λ i. IsIndex i.source.now i.values i.functions (get nat_cmp i.imports) };
}

impl<'a> ModuleIndex<'a> {
    pub fn of(alloc: Global, module: &'a Module) -> Result<ModuleIndex<'a>, Memory>
        ensures { IfOk result (λ i. i ≡ «module».now) }
    {
        Ok(ModuleIndex {
            source: module,
            values: ValueTypes::of(alloc, module)?,
            functions: Functions::of(alloc, module)?,
            imports: imports_of(alloc, module.heads())?,
        })
    }

    /// The module.
    pub fn module(&self) -> &'a Module
        ensures { result.now ≡ self.now }
    {
        self.source
    }

    /// Whether this is a type, but no value type.
    pub fn is_no_value_type(&self, ty: u32) -> bool
        ensures { result ≡ is_no_value_type self.now.heads self.now.globals ty }
    {
        self.values.is_other(ty)
    }

    /// The function with this id.
    pub fn callee(&self, id: u32) -> Option<&'a Function>
        ensures { option_copied result ≡ function_with self.now.functions id }
    {
        let place = self.functions.get(Id(id))?;
        self.source.functions().get(place)
    }

    /// Whether there is a function with this id.
    pub fn has_function(&self, id: u32) -> bool
        ensures { result ≡ is_some (function_in self.now.functions id) }
    {
        self.functions.get(Id(id)).is_some()
    }

    /// Whether the import with this id stands before a word.
    pub fn is_import(&self, before: u32, id: u32) -> bool
        ensures { result ≡ is_import_before self.now.heads before id }
    {
        match self.imports.get(&id).copied() {
            Some(at) => at < before,
            None => false,
        }
    }
}
