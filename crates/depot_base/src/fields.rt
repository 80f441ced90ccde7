//! A reader over a text.
ghost use Rattle.std.specs.Prelude.{◌≡◌, ◌==◌, length, IfSome};
ghost use Rattle.std.specs.Int.{w8, w16, w32, w64};
ghost use Rattle.std.specs.Option.{option_copied};
ghost use Rattle.depot_base.specs.Cursor.{Cursor};
ghost use Rattle.depot_base.specs.Reading.{TakesNumber, TakesBytes, TakesPart};

use crate::Hash32;
use std::marker::Model;

/// A reader over a text, from left to right: the offset reached, and the bytes that are left. No call takes memory.
#[derive(Debug, Drop)]
pub struct Fields<'a> {
    rest: &'a [u8],
    at: usize,
}

impl<'a> Model for Fields<'a> {
    ghost use Rattle.std.specs.Prelude.{◌+◌, ◌<◌, ◌^◌, length};
    ghost use Rattle.depot_base.specs.Cursor.{Cursor};

    ghost Value = { Cursor };

    ghost view = { λ f. record { at = f.at; rest = f.rest.now } };

    ghost invariant = { λ f. f.at + length f.rest.now < 2 ^ 63 };
}

impl<'a> Fields<'a> {
    /// A reader at the start of the text.
    pub fn new(text: &'a [u8]) -> Fields<'a>
        ensures { result ≡ record { at = 0; rest = text.now } }
    {
        Fields { rest: text, at: 0 }
    }

    /// The offset reached, in bytes from the start of the text.
    pub fn at(&self) -> usize
        ensures { result ≡ self.now.at }
    {
        self.at
    }

    /// Whether no byte is left.
    pub fn is_at_end(&self) -> bool
        ensures { result ≡ (length self.now.rest == 0) }
    {
        self.rest.is_empty()
    }

    /// Borrows the bytes that are left, without taking them.
    pub fn rest(&self) -> &'a [u8]
        ensures { result.now ≡ self.now.rest }
    {
        self.rest
    }

    /// Takes the next `count` bytes, borrowed from the text. Returns None, and takes nothing, exactly where fewer are
    /// left.
    pub fn take_bytes(&mut self, count: usize) -> Option<&'a [u8]>
        ensures takes { TakesBytes count self.old (option_copied result) self.new }
        ensures length { IfSome result (λ bytes. length bytes.now ≡ count) }
    {
        if self.rest.len() < count {
            return None;
        }
        let (front, rest) = self.rest.split_at(count);
        self.rest = rest;
        self.at += count;
        Some(front)
    }

    /// Takes the next `count` bytes as a reader of their own, whose offsets continue from here. Returns None, and takes
    /// nothing, exactly where fewer are left.
    pub fn take_part(&mut self, count: usize) -> Option<Fields<'a>>
        ensures { TakesPart count self.old result self.new }
    {
        if self.rest.len() < count {
            return None;
        }
        let (front, rest) = self.rest.split_at(count);
        let part = Fields {
            rest: front,
            at: self.at,
        };
        self.rest = rest;
        self.at += count;
        Some(part)
    }

    /// Takes a byte. Returns None, and takes nothing, exactly where none is left.
    pub fn take_u8(&mut self) -> Option<u8>
        ensures { TakesNumber w8 self.old result self.new }
    {
        let front = self.take_bytes(1)?;
        Some(front[0])
    }

    /// Takes a number of two bytes, big-endian. Returns None, and takes nothing, exactly where fewer are left.
    pub fn take_u16(&mut self) -> Option<u16>
        ensures { TakesNumber w16 self.old result self.new }
    {
        let front = self.take_bytes(2)?;
        Some(u16::from_be_bytes([front[0], front[1]]))
    }

    /// Takes a number of four bytes, big-endian. Returns None, and takes nothing, exactly where fewer are left.
    pub fn take_u32(&mut self) -> Option<u32>
        ensures { TakesNumber w32 self.old result self.new }
    {
        let front = self.take_bytes(4)?;
        Some(u32::from_be_bytes([front[0], front[1], front[2], front[3]]))
    }

    /// Takes a number of eight bytes, big-endian. Returns None, and takes nothing, exactly where fewer are left.
    pub fn take_u64(&mut self) -> Option<u64>
        ensures { TakesNumber w64 self.old result self.new }
    {
        let front = self.take_bytes(8)?;
        Some(u64::from_be_bytes([
            front[0], front[1], front[2], front[3], front[4], front[5], front[6], front[7],
        ]))
    }

    /// Takes 32 bytes. Returns None, and takes nothing, exactly where fewer are left.
    pub fn take_hash(&mut self) -> Option<Hash32>
        ensures { TakesBytes 32 self.old result self.new }
    {
        let front = self.take_bytes(32)?;
        let mut bytes = [0u8; 32];
        bytes.copy_from_slice(front);
        Some(Hash32::new(bytes))
    }
}
