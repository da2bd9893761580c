// The names of types.
ghost use Rattle.std.specs.Prelude.{◌≡◌, [], IfOk};
ghost use Rattle.glsl_ast.specs.Tree.{type_name as type_name_tree};
ghost use Rattle.glsl_ast.specs.View.{base_of, extent_of, type_of};
ghost use Rattle.spv_types.specs.View.{tree_of};
ghost use Rattle.text_rules.specs.Constants.{reading as reading_of};
ghost use Rattle.text_rules.specs.Types.{with_extent as with_extent_of, type_text};
ghost use Rattle.text_rules.specs.Outlines.{outline as outline_of_type, outline_at as outline_at_of};
ghost use Rattle.text_rules.specs.Declarations.{extent_by, length_extent, spelling};
ghost use Rattle.constant_text.specs.Named.{id_names};

use crate::Readings;
use crate::basics::{basic_at, vector_base};
use crate::constants::axis_text;
use crate::names::name;
use crate::outlines::outline_at;
use glsl_ast::{Base, Extent, Name, TypeName};
use name_alloc::{Key, Names};
use spv_module::{Id, Inst, Length, Shape};
use spv_ops::Op;
use spv_words::Memory;
use std::alloc::Global;
use text_rules::Reading;

/// The name of a type that is no array.
fn plain_type(alloc: Global, base: Base) -> TypeName
    ensures { type_of result ≡ type_name_tree (base_of base) [] }
{
    TypeName {
        base,
        extents: Vec::new(alloc),
    }
}

/// The type with an extent before its own.
fn with_extent(extent: Extent, part: TypeName) -> Result<TypeName, Memory>
    ensures { IfOk result (λ t. type_of t ≡ with_extent_of (extent_of extent) (type_of part)) }
{
    let TypeName { base, mut extents } = part;
    extents.insert(0, extent)?;
    Ok(TypeName { base, extents })
}

impl Readings<'_> {
    /// How a constant that is the length of an array is written.
    fn constant_extent(&self, alloc: Global, names: &Names, inst: &Inst) -> Result<Extent, Memory>
        ensures { IfOk result (λ x. extent_of x ≡ extent_by self.now (id_names names.now) inst.now (reading_of self.now inst.now)) }
    {
        match self.reading(inst) {
            Reading::Plain => Ok(Extent::Number(self.word(inst))),
            Reading::Named => {
                let name = name(alloc, names, Key::Id(Id(inst.result)))?;
                Ok(Extent::Name(name))
            }
            Reading::GroupSize => Ok(Extent::Number(0)),
            Reading::GroupSizePart(axis) => {
                Ok(Extent::Size(Name::from_str(alloc, axis_text(axis))?))
            }
        }
    }

    fn extent(&self, alloc: Global, names: &Names, length: Length) -> Result<Extent, Memory>
        ensures { IfOk result (λ x. extent_of x ≡ length_extent self.now (id_names names.now) length) }
    {
        match length {
            Length::Fixed(number) => Ok(Extent::Number(number)),
            Length::Spec(id) => match self.module().global(id) {
                None => Ok(Extent::Number(0)),
                Some(inst) => self.constant_extent(alloc, names, inst),
            },
        }
    }

    /// The name of a shape's type, the outermost extent of an array first (GLSL 4.60, section 4.1). A struct has the name of its
    /// id. There is an error only for want of memory.
    #[tactic(auto, using(spv_types::proofs::Views::shape_rows))]
    pub fn type_name(&self, alloc: Global, names: &Names, shape: &Shape) -> Result<TypeName, Memory>
        ensures { IfOk result (λ t. type_of t ≡ type_text (spelling self.now (id_names names.now)) (tree_of shape.now)) }
    {
        match shape {
            Shape::Bool => Ok(plain_type(alloc, Base::Bool)),
            Shape::Int => Ok(plain_type(alloc, Base::Int)),
            Shape::Uint => Ok(plain_type(alloc, Base::Uint)),
            Shape::Vector(elem, size) => Ok(plain_type(alloc, vector_base(*elem, *size))),
            Shape::Array(part, length) => {
                let extent = self.extent(alloc, names, *length)?;
                with_extent(extent, self.type_name(alloc, names, part)?)
            }
            Shape::Runtime(part) => {
                with_extent(Extent::Open, self.type_name(alloc, names, part)?)
            }
            Shape::Struct(id, _) => {
                let name = name(alloc, names, Key::Id(*id))?;
                Ok(plain_type(alloc, Base::Struct(name)))
            }
        }
    }

    /// The name of the array or struct type that an instruction declares.
    #[inline(never)]
    fn outlined_name(&self, alloc: Global, names: &Names, inst: &Inst) -> Result<TypeName, Memory>
        ensures { IfOk result (λ t. type_of t ≡ type_text (spelling self.now (id_names names.now)) (outline_at_of self.now.of.globals inst.now)) }
    {
        let shape = outline_at(alloc, self.module(), inst)?;
        self.type_name(alloc, names, &shape)
    }

    /// The name of the type that an instruction declares, and `uint` where it declares none.
    #[inline(always)]
    #[tactic(auto, unfolding(spv_types::specs::Types::kind), using(crate::proofs::Bases::base_rules))]
    fn type_name_at(&self, alloc: Global, names: &Names, inst: &Inst) -> Result<TypeName, Memory>
        ensures { IfOk result (λ t. type_of t ≡ type_text (spelling self.now (id_names names.now)) (outline_at_of self.now.of.globals inst.now)) }
    {
        match inst.op {
            Op::TypeArray | Op::TypeRuntimeArray | Op::TypeStruct => {
                self.outlined_name(alloc, names, inst)
            }
            _ => Ok(plain_type(alloc, basic_at(self.module(), inst).base())),
        }
    }

    /// The name of the type with an id, and `uint` of what is none. There is an error only for want of memory.
    ///
    /// The cost does not grow with the members of structs.
    #[inline(always)]
    pub fn type_name_of(&self, alloc: Global, names: &Names, ty: u32) -> Result<TypeName, Memory>
        ensures { IfOk result (λ t. type_of t ≡ type_text (spelling self.now (id_names names.now)) (outline_of_type self.now.of.globals ty)) }
    {
        match self.module().global(Id(ty)) {
            None => Ok(plain_type(alloc, Base::Uint)),
            Some(inst) => self.type_name_at(alloc, names, inst),
        }
    }
}
