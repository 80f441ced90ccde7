//! Held values by the names that writes give them.
ghost use Rattle.std.specs.Prelude.{◌≡◌, option_copied};
ghost use Rattle.depot_model.specs.journals.Journal.{held_as};

use depot_base::NamedValue;
use depot_model::Scheme;
use depot_readings::Readings;

/// The held value of this hash and this length. None exactly where there is none. It takes no memory.
pub fn held_as<'a, S: Scheme>(readings: &'a Readings<S>, name: &NamedValue) -> Option<&'a [u8]>
    ensures { option_copied result ≡ held_as readings.now.records name.now }
{
    match readings.value(&name.hash) {
        Some(value) if value.len() == name.size as usize => Some(value),
        _ => None,
    }
}
