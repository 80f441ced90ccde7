//! Bytes that grow at their end.
ghost use Rattle.std.specs.Prelude.{◌≡◌, ℕ, List, [], ◌++◌, OnOk, OnErr, IfOk};
ghost use Rattle.std.specs.Int.{w8, w16, w32, w64};
ghost use Rattle.depot_base.specs.Cursor.{numeral};

use crate::Memory;
use std::alloc::Global;
use std::marker::Model;

/// A list of bytes.
#[derive(Debug, Drop)]
pub struct Bytes(Vec<u8>);

impl Model for Bytes {
    ghost Value = { List ℕ };

    ghost view = { λ b. b.0.items };
}

impl Bytes {
    /// No bytes. It takes no memory.
    pub fn new(alloc: Global) -> Bytes
        ensures { result ≡ [] }
    {
        Bytes(Vec::new(alloc))
    }

    /// A copy of these bytes.
    pub fn from_slice(alloc: Global, bytes: &[u8]) -> Result<Bytes, Memory>
        ensures { IfOk result (λ made. made ≡ bytes.now) }
    {
        Ok(Bytes(Vec::from_slice(alloc, bytes)?))
    }

    /// The bytes of a vector, which gives its memory.
    pub fn from_vec(bytes: Vec<u8>) -> Bytes
        ensures { result ≡ bytes.items }
    {
        Bytes(bytes)
    }

    /// The vector of the bytes, which gives its memory.
    pub fn into_vec(self) -> Vec<u8>
        ensures { result.items ≡ self }
    {
        self.0
    }

    /// The bytes.
    pub fn as_slice(&self) -> &[u8]
        ensures { result.now ≡ self.now }
    {
        self.0.as_slice()
    }

    /// Adds bytes at the end.
    pub fn push_all(&mut self, more: &[u8]) -> Result<(), Memory>
        ensures ok { OnOk result (self.new ≡ self.old ++ more.now) }
        ensures err { OnErr result (self.new ≡ self.old) }
    {
        self.0.extend_from_slice(more)?;
        Ok(())
    }

    /// Adds a byte at the end.
    #[tactic(auto, unfolding(crate::specs::Cursor::numeral))]
    pub fn push_u8(&mut self, n: u8) -> Result<(), Memory>
        ensures ok { OnOk result (self.new ≡ self.old ++ numeral w8 n) }
        ensures err { OnErr result (self.new ≡ self.old) }
    {
        self.push_all(&n.to_be_bytes())
    }

    /// Adds a number at the end, as two bytes, the high one first.
    #[tactic(auto, unfolding(crate::specs::Cursor::numeral))]
    pub fn push_u16(&mut self, n: u16) -> Result<(), Memory>
        ensures ok { OnOk result (self.new ≡ self.old ++ numeral w16 n) }
        ensures err { OnErr result (self.new ≡ self.old) }
    {
        self.push_all(&n.to_be_bytes())
    }

    /// Adds a number at the end, as four bytes, the highest first.
    #[tactic(auto, unfolding(crate::specs::Cursor::numeral))]
    pub fn push_u32(&mut self, n: u32) -> Result<(), Memory>
        ensures ok { OnOk result (self.new ≡ self.old ++ numeral w32 n) }
        ensures err { OnErr result (self.new ≡ self.old) }
    {
        self.push_all(&n.to_be_bytes())
    }

    /// Adds a number at the end, as eight bytes, the highest first.
    #[tactic(auto, unfolding(crate::specs::Cursor::numeral))]
    pub fn push_u64(&mut self, n: u64) -> Result<(), Memory>
        ensures ok { OnOk result (self.new ≡ self.old ++ numeral w64 n) }
        ensures err { OnErr result (self.new ≡ self.old) }
    {
        self.push_all(&n.to_be_bytes())
    }

    /// A copy of these bytes.
    pub fn copy(&self) -> Result<Bytes, Memory>
        ensures { IfOk result (λ b. b ≡ self.now) }
    {
        Bytes::from_slice(*self.0.allocator(), self.0.as_slice())
    }
}
