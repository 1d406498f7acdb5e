//! The name under which a list is on its way.
ghost use Rattle.std.specs.Prelude.{◌≡◌, ◌≤◌, length};
ghost use Rattle.journal_model.specs.Names.{partial};

use std::marker::Model;

/// `partial/NAME` for a list's NAME. It takes no memory. Contracts see the bytes of the name.
#[derive(Debug, Drop)]
pub struct PartialName {
    bytes: [u8; 255],
    len: usize,
}

impl Model for PartialName {
    ghost use Rattle.std.specs.Prelude.{List, ℕ, take, ◌≤◌};

    ghost Value = { List ℕ };

    ghost view = { λ name. take name.len name.bytes };

    ghost invariant = { λ name. name.len ≤ 255 };
}

impl PartialName {
    /// That of a list's name, which has at most 247 bytes.
    pub fn new(name: &[u8]) -> PartialName
        requires { length name.now ≤ 247 }
        ensures { result ≡ partial name.now }
    {
        let mut bytes = [0u8; 255];
        let len = 8 + name.len();
        bytes[..8].copy_from_slice(b"partial/".as_slice());
        bytes[8..len].copy_from_slice(name);
        PartialName { bytes, len }
    }

    /// Its bytes.
    pub fn as_bytes(&self) -> &[u8]
        ensures { result.now ≡ self.now }
    {
        &self.bytes[..self.len]
    }
}
