// A page's bytes at a station.
ghost use Rattle.std.specs.Prelude.{◌≡◌, ℕ, ◌≤◌, List, length};

use std::marker::Model;

/// A page's bytes on a station's part of the shelf, to be read: at most 64.
#[derive(Drop)]
pub struct Text<'a> {
    bytes: &'a [u8],
}

impl<'a> Model for Text<'a> {
    ghost Value = { List ℕ };

    ghost view = { λ t. t.bytes.now };

    ghost invariant = { λ t. length t.bytes.now ≤ 64 };
}

impl<'a> Text<'a> {
    /// The text that the bytes are.
    pub fn new(bytes: &'a [u8]) -> Text<'a>
        requires { length bytes.now ≤ 64 }
        ensures { result ≡ bytes.now }
    {
        Text { bytes }
    }

    /// Its bytes.
    pub fn as_bytes(&self) -> &[u8]
        ensures same { result.now ≡ self.now }
        ensures short { length result.now ≤ 64 }
    {
        self.bytes
    }
}
