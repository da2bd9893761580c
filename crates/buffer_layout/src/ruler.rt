// By what types are measured.
ghost use Rattle.std.specs.Prelude.{◌≡◌};
ghost use Rattle.spv_ops.specs.Enumerants.{decoration_number};
ghost use Rattle.spv_ops.specs.declared.Decoration.TheVariants as decoration;
ghost use Rattle.spv_decor.specs.Rows.{value_of};
ghost use Rattle.layout_rules.specs.Parts.{part_id as part_id_in};
ghost use Rattle.layout_rules.specs.Rules.{offset_of as offset_in};

use crate::decorations::{offset_of, stride_of};
use layout_rules::Kind;
use spv_decor::Decor;
use spv_module::{Id, Module};
use std::marker::Model;

/// A layout, and the module whose types are measured by it, with its decorations. Contracts see the lists and the
/// layout.
#[derive(Drop)]
pub struct Ruler<'a> {
    module: &'a Module,
    decor: &'a Decor<'a>,
    kind: Kind,
}

impl<'a> Model for Ruler<'a> {
    ghost use Rattle.buffer_layout.specs.Ruler.{RulerState};

    ghost Value = { RulerState };

    ghost view = { λ r. record { heads = r.decor.now; globals = r.«module».now.globals; kind = r.kind } };
}

/// The id of an array's element type (operand 0), or of the type of a struct's member.
fn part_id(module: &Module, id: u32, k: usize) -> u32
    ensures { result ≡ part_id_in «module».now.globals id k }
{
    match module.global(Id(id)) {
        Some(inst) => inst.operand(k),
        None => 0,
    }
}

impl<'a> Ruler<'a> {
    /// Measures the types of a module by a layout.
    pub fn new(module: &'a Module, decor: &'a Decor<'a>, kind: Kind) -> Ruler<'a>
        ensures { result ≡ record { heads = decor.now; globals = «module».now.globals; kind = kind } }
    {
        Ruler {
            module,
            decor,
            kind,
        }
    }

    /// The layout.
    pub fn kind(&self) -> Kind
        ensures { result ≡ self.now.kind }
    {
        self.kind
    }

    /// The id of an array's element type (operand 0), or of the type of a struct's member.
    pub fn part_id(&self, id: u32, k: usize) -> u32
        ensures { result ≡ part_id_in self.now.globals id k }
    {
        part_id(self.module, id, k)
    }

    /// The Offset of a struct's member.
    pub fn offset_of(&self, id: u32, member: usize) -> Option<u32>
        ensures { result ≡ offset_in self.now.heads id member }
    {
        offset_of(self.decor, id, member)
    }

    /// The ArrayStride of an array.
    pub fn stride_of(&self, id: u32) -> Option<u32>
        ensures { result ≡ value_of self.now.heads id (decoration_number decoration.ArrayStride) }
    {
        stride_of(self.decor, id)
    }
}
