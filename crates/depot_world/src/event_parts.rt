//! What a load's events name: nodes, keys, values and labels.
ghost use Rattle.std.specs.Prelude.{◌≡◌, ◌<◌, IsTrue, IfOk};
ghost use Rattle.depot_world.specs.Loads.{load_key, label_of, value_of};
ghost use Rattle.depot_lines.specs.Spelling.{is_letter};

use depot_base::{Bytes, Key, Memory, NodeId, Value};
use depot_lines::Label;
use std::alloc::Global;

/// The node of this number.
pub fn node(number: u16) -> NodeId
    requires { 0 < number }
    ensures { result ≡ number }
{
    match NodeId::new(number) {
        Some(node) => node,
        None => unreachable!(),
    }
}

/// The key of this number.
#[tactic(auto, using(crate::proofs::of_loads::WordLaws::length_key_of))]
pub fn key(alloc: Global, number: u16) -> Result<Key, Memory>
    ensures { IfOk result (λ key. key ≡ load_key number) }
{
    let mut bytes = Bytes::new(alloc);
    bytes.push_u16(number)?;
    Ok(Key::from_bytes(bytes))
}

/// The value of this round.
#[tactic(auto, using(crate::proofs::of_loads::WordLaws::length_value_of))]
pub fn value(alloc: Global, round: u32) -> Result<Value, Memory>
    ensures { IfOk result (λ value. value ≡ value_of round) }
{
    let mut bytes = Bytes::new(alloc);
    bytes.push_u32(round)?;
    Ok(Value::from_bytes(bytes))
}

/// The label of a letter and a number.
#[tactic(auto, using(crate::proofs::of_loads::WordLaws::is_label_of))]
pub fn label(alloc: Global, letter: u8, number: u32) -> Result<Label, Memory>
    requires { IsTrue (is_letter letter) }
    ensures { IfOk result (λ label. label ≡ label_of letter number) }
{
    let digits = format!(in alloc; "{number}")?;
    let mut bytes = Bytes::from_slice(alloc, &[letter])?;
    bytes.push_all(digits.as_bytes())?;
    match Label::new(bytes) {
        Some(label) => Ok(label),
        None => unreachable!(),
    }
}
