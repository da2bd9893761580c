// Short texts.
ghost use Rattle.std.specs.Prelude.{◌≡◌, ◌≤◌, ◌+◌, ◌++◌, take, length, IsUtf8};

use std::str;

/// The most bytes of a short text.
pub const ROOM: usize = 14;

/// A text of at most 14 bytes, which lie in the value itself.
#[derive(Clone, Copy)]
pub struct ShortText {
    len: u8,
    bytes: [u8; ROOM],
    pub ghost fits: { len ≤ 14 },
    pub ghost is_text: { ∥ IsUtf8 (take len bytes) ∥₁ },
}

impl ShortText {
    ghost use Rattle.glsl_ast.specs.Short.{short_text};

    /// The short text of these bytes.
    #[inline]
    pub fn new(text: &str) -> ShortText
        requires { length text.now ≤ 14 }
        ensures { short_text result ≡ text.now }
    {
        let mut bytes = [0; ROOM];
        bytes[..text.len()].copy_from_slice(text.as_bytes());
        ShortText {
            len: text.len() as u8,
            bytes,
        }
    }

    /// The short text of two texts, one behind the other.
    #[inline]
    pub fn joined(front: &str, back: &str) -> ShortText
        requires { length front.now + length back.now ≤ 14 }
        ensures { short_text result ≡ front.now ++ back.now }
    {
        let mut bytes = [0; ROOM];
        let len = front.len() + back.len();
        bytes[..front.len()].copy_from_slice(front.as_bytes());
        bytes[front.len()..len].copy_from_slice(back.as_bytes());
        ShortText {
            len: len as u8,
            bytes,
        }
    }

    /// The bytes of the text.
    #[inline]
    pub fn as_bytes(&self) -> &[u8]
        ensures { result.now ≡ short_text self.now }
    {
        &self.bytes[..self.len as usize]
    }

    /// The text.
    pub fn as_str(&self) -> &str
        ensures { result.now ≡ short_text self.now }
    {
        str::from_utf8(self.as_bytes()).unwrap()
    }
}
