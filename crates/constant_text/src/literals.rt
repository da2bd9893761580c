// The literals of constants.
ghost use Rattle.std.specs.Prelude.{◌≡◌};
ghost use Rattle.text_rules.specs.Constants.{int_literal as int_literal_of, plain_literal, plain_value};
ghost use Rattle.text_rules.specs.Declarations.{word_of};
ghost use Rattle.profile_rules.specs.Constants.{chosen_truth as chosen_truth_of};
ghost use Rattle.constant_text.specs.Scalars.{word_literal as word_literal_of, zero_literal as zero_literal_of};

use crate::Readings;
use crate::scalars::scalar_type;
use glsl_ast::Literal;
use profile_rules::ConstantKind;
use spv_module::{Elem, Id, Inst};

/// The literal of an int with these bits: decimal digits, and hexadecimal ones where it is negative, since GLSL has no negative
/// literals (GLSL 4.60, section 4.1.3).
pub fn int_literal(word: u32) -> Literal
    ensures { result ≡ int_literal_of word }
{
    if word < 1 << 31 {
        Literal::Int(word)
    } else {
        Literal::Hex(word)
    }
}

fn word_literal(ty: Option<Elem>, word: u32) -> Literal
    ensures { result ≡ word_literal_of ty word }
{
    match ty {
        Some(Elem::Int) => int_literal(word),
        Some(Elem::Bool | Elem::Uint) | None => Literal::Uint(word),
    }
}

fn zero_literal(ty: Option<Elem>) -> Literal
    ensures { result ≡ zero_literal_of ty }
{
    match ty {
        Some(Elem::Bool) => Literal::Truth(false),
        Some(Elem::Int) => Literal::Int(0),
        Some(Elem::Uint) | None => Literal::Uint(0),
    }
}

/// The truth value that an override gives, or the default.
fn chosen_truth(chosen: Option<u32>, default: bool) -> bool
    ensures { result ≡ chosen_truth_of chosen default }
{
    match chosen {
        None => default,
        Some(word) => word != 0,
    }
}

impl Readings<'_> {
    /// The word of a constant of an integer: its own, or that of its override; that of another is 0.
    #[inline(always)]
    #[tactic(auto, using(crate::proofs::Shapes::zero_word))]
    pub fn word(&self, inst: &Inst) -> u32
        ensures { result ≡ word_of (plain_value self.now inst.now) }
    {
        match ConstantKind::of(inst.op) {
            ConstantKind::Word => inst.operand(0),
            ConstantKind::SpecWord => self
                .override_word(Id(inst.result))
                .unwrap_or(inst.operand(0)),
            ConstantKind::True
            | ConstantKind::False
            | ConstantKind::SpecTrue
            | ConstantKind::SpecFalse
            | ConstantKind::Composite
            | ConstantKind::Zero
            | ConstantKind::Operation
            | ConstantKind::Other => 0,
        }
    }

    /// The literal of the constant that an instruction defines: of its own value, or of that of its override. One that is made of
    /// other constants has none, and its answer is 0 (GLSL 4.60, section 4.1.3).
    #[tactic(auto, using(crate::proofs::Shapes::scalar_rules))]
    pub fn literal(&self, inst: &Inst) -> Literal
        ensures { result ≡ plain_literal self.now inst.now }
    {
        let ty = scalar_type(self.source, inst.ty);
        let chosen = self.override_word(Id(inst.result));
        match ConstantKind::of(inst.op) {
            ConstantKind::True => Literal::Truth(true),
            ConstantKind::False => Literal::Truth(false),
            ConstantKind::Word => word_literal(ty, inst.operand(0)),
            ConstantKind::Zero => zero_literal(ty),
            ConstantKind::SpecTrue => Literal::Truth(chosen_truth(chosen, true)),
            ConstantKind::SpecFalse => Literal::Truth(chosen_truth(chosen, false)),
            ConstantKind::SpecWord => word_literal(ty, chosen.unwrap_or(inst.operand(0))),
            ConstantKind::Composite | ConstantKind::Operation | ConstantKind::Other => {
                word_literal(ty, 0)
            }
        }
    }
}
