//! Keys and values: bytes of a bounded number.
ghost use Rattle.std.specs.Prelude.{◌≡◌, ℕ, List, IfOk};
ghost use Rattle.depot_base.specs.Sized.{IsKey, IsValue, GivesWithin};

use crate::limits::{MOST_KEY, MOST_VALUE};
use crate::{Bytes, LengthError, Memory};
use std::alloc::Global;
use std::marker::Model;

/// A key of 1 to 255 bytes.
#[derive(Debug, Drop)]
pub struct Key(Bytes);

impl Model for Key {
    ghost Value = { List ℕ };

    ghost view = { λ k. k.0 };

    ghost invariant = { λ k. IsKey k.0 };
}

impl Key {
    /// The key of these bytes, or their number where it is no key's.
    pub fn new(alloc: Global, bytes: &[u8]) -> Result<Key, LengthError>
        ensures { GivesWithin IsKey bytes.now result }
    {
        if bytes.is_empty() || bytes.len() > MOST_KEY {
            return Err(LengthError::Length(bytes.len()));
        }
        Ok(Key(Bytes::from_slice(alloc, bytes)?))
    }

    /// The key of bytes whose number is known to be a key's. It takes no memory.
    pub fn from_bytes(bytes: Bytes) -> Key
        requires { IsKey bytes }
        ensures { result ≡ bytes }
    {
        Key(bytes)
    }

    /// Its bytes.
    pub fn bytes(&self) -> &[u8]
        ensures same { result.now ≡ self.now }
        ensures key { IsKey self.now }
    {
        self.0.as_slice()
    }

    /// A copy of the key.
    pub fn copy(&self) -> Result<Key, Memory>
        ensures { IfOk result (λ k. k ≡ self.now) }
    {
        Ok(Key(self.0.copy()?))
    }
}

/// A value of at most 65,536 bytes.
#[derive(Debug, Drop)]
pub struct Value(Bytes);

impl Model for Value {
    ghost Value = { List ℕ };

    ghost view = { λ v. v.0 };

    ghost invariant = { λ v. IsValue v.0 };
}

impl Value {
    /// The value of these bytes, or their number where it is no value's.
    pub fn new(alloc: Global, bytes: &[u8]) -> Result<Value, LengthError>
        ensures { GivesWithin IsValue bytes.now result }
    {
        if bytes.len() > MOST_VALUE {
            return Err(LengthError::Length(bytes.len()));
        }
        Ok(Value(Bytes::from_slice(alloc, bytes)?))
    }

    /// The value of bytes whose number is known to be a value's. It takes no memory.
    pub fn from_bytes(bytes: Bytes) -> Value
        requires { IsValue bytes }
        ensures { result ≡ bytes }
    {
        Value(bytes)
    }

    /// Its bytes.
    pub fn bytes(&self) -> &[u8]
        ensures same { result.now ≡ self.now }
        ensures value { IsValue self.now }
    {
        self.0.as_slice()
    }

    /// A copy of the value.
    pub fn copy(&self) -> Result<Value, Memory>
        ensures { IfOk result (λ v. v ≡ self.now) }
    {
        Ok(Value(self.0.copy()?))
    }
}
