// Names, most of which are short.
ghost use Rattle.std.specs.Prelude.{◌≡◌, ◌++◌, ◌∷◌, [], IfOk, bytes_eq, string_bytes};
ghost use Rattle.glsl_ast.specs.View.{name_text};

use crate::short::{ROOM, ShortText};
use out_of_memory::Memory;
use std::alloc::Global;
use std::hash::{Hash, Hasher};
use std::rc::RcStr;

/// A name in the text (GLSL 4.60, section 3.7). A short one lies in the value itself, a longer one is shared by its copies.
#[derive(Drop)]
pub enum Name {
    Short(ShortText),
    Long(RcStr),
}

impl Name {
    /// The name of this text. There is an error only where there is no memory for it.
    #[inline]
    pub fn from_str(alloc: Global, text: &str) -> Result<Name, Memory>
        ensures { IfOk result (λ name. name_text name ≡ text.now) }
    {
        if text.len() <= ROOM {
            return Ok(Name::Short(ShortText::new(text)));
        }
        Ok(Name::Long(RcStr::from_str(alloc, text)?))
    }

    /// The name of this text. There is an error only where there is no memory for it.
    pub fn from_string(text: String) -> Result<Name, Memory>
        ensures { IfOk result (λ name. name_text name ≡ string_bytes text) }
    {
        if text.as_str().len() <= ROOM {
            return Ok(Name::Short(ShortText::new(text.as_str())));
        }
        Ok(Name::Long(RcStr::from_string(text)?))
    }

    /// The name of two texts, one behind the other. There is an error only where there is no memory for it.
    #[inline(always)]
    pub fn joined(alloc: Global, front: &str, back: &str) -> Result<Name, Memory>
        ensures { IfOk result (λ name. name_text name ≡ front.now ++ back.now) }
    {
        if front.len() + back.len() <= ROOM {
            return Ok(Name::Short(ShortText::joined(front, back)));
        }
        let mut text = String::from_str(alloc, front)?;
        text.push_str(back)?;
        Name::from_string(text)
    }

    /// The same name again, with no text of its own. There is an error only where there are too many of a long name.
    #[inline]
    pub fn shared(&self) -> Result<Name, Memory>
        ensures { IfOk result (λ name. name_text name ≡ name_text self.now) }
    {
        match self {
            Name::Short(text) => Ok(Name::Short(*text)),
            Name::Long(text) => Ok(Name::Long(text.clone()?)),
        }
    }

    /// The bytes of the name.
    #[inline]
    pub fn as_bytes(&self) -> &[u8]
        ensures { result.now ≡ name_text self.now }
    {
        match self {
            Name::Short(text) => text.as_bytes(),
            Name::Long(text) => text.as_str().as_bytes(),
        }
    }

    /// The text of the name.
    pub fn as_str(&self) -> &str
        ensures { result.now ≡ name_text self.now }
    {
        match self {
            Name::Short(text) => text.as_str(),
            Name::Long(text) => text.as_str(),
        }
    }
}

impl PartialEq for Name {
    ghost use Rattle.std.specs.Cmp.{on_per, partial_equiv_from_equiv};
    ghost use Rattle.std.specs.Cmp.Lexicographic.{nat_list_eq_equiv};

    ghost eq = { λ x y. bytes_eq (name_text x) (name_text y) };

    ghost laws = { on_per name_text (partial_equiv_from_equiv nat_list_eq_equiv) };

    #[inline]
    fn eq(&self, other: &Name) -> bool {
        self.as_bytes() == other.as_bytes()
    }
}

impl Eq for Name {
    ghost use Rattle.std.specs.Cmp.{on_equiv};
    ghost use Rattle.std.specs.Cmp.Lexicographic.{nat_list_eq_equiv};

    ghost laws = { on_equiv name_text nat_list_eq_equiv };
}

impl Hash for Name {
    ghost use Rattle.std.proofs.Common.{ap};
    ghost use Rattle.std.specs.Cmp.Lexicographic.{bytes_decides};

    ghost hash_input = { λ name. name_text name ∷ [] };

    ghost respects_eq = { λ x y h. ap (λ bytes. bytes ∷ []) ((bytes_decides (name_text x) (name_text y)).0 h) };

    #[inline]
    fn hash<H: Hasher>(&self, state: &mut H) {
        state.write(self.as_bytes());
    }
}
