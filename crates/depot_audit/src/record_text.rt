//! Texts of lawful records, as values.
ghost use Rattle.std.specs.Prelude.{◌≡◌, IfOk};
ghost use Rattle.depot_base.specs.declared.record.Record.{Record};
ghost use Rattle.depot_model.specs.texts.Records.{IsTextOf};

use depot_base::{DecodeError, Memory, Record};
use depot_update::decode_record;
use std::alloc::Global;

/// Decodes a text that is a record's: the only error is Memory.
pub fn record_of(alloc: Global, text: &[u8]) -> Result<Record, Memory>
    requires { (r : Record) × IsTextOf r text.now }
    ensures { IfOk result (λ item. (r : Record) → IsTextOf r text.now → item ≡ r) }
{
    match decode_record(alloc, text) {
        Ok(item) => Ok(item),
        Err(DecodeError::Memory) => Err(Memory),
        Err(DecodeError::IllFormed(_)) => unreachable!(),
    }
}
