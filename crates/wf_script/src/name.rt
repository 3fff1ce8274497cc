//! Names.

ghost use Rattle.std.specs.Prelude.{◌≡◌, ◌≤◌, length};

use arrayvec::ArrayString;
use std::marker::Model;

/// A name that a script binds: a lower-case letter and at most 15 lower-case letters, digits or `_`.
#[derive(Drop)]
pub struct Name {
    text: ArrayString<16>,
}

impl Model for Name {
    ghost use Rattle.std.specs.Prelude.{List, ℕ};

    ghost Value = { List ℕ };

    ghost view = { λ name. name.text.bytes };
}

impl Name {
    pub(crate) fn new(text: ArrayString<16>) -> Name
        ensures { result ≡ text.bytes }
    {
        Name { text }
    }

    /// Returns the letters of the name.
    pub fn as_str(&self) -> &str
        ensures { result.now ≡ self.now }
    {
        self.text.as_str()
    }

    /// The same as bytes.
    pub(crate) fn as_bytes(&self) -> &[u8]
        ensures letters { result.now ≡ self.now }
        ensures short { length result.now ≤ 16 }
    {
        self.text.as_str().as_bytes()
    }
}
