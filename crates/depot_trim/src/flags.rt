//! The flag of each item.
ghost use Rattle.std.specs.Prelude.{◌≡◌, ◌<◌, length, Some, slice_get};

/// The flag of an item.
pub(crate) fn flag_at(flags: &[bool], item: u32) -> bool
    requires { item < length flags.now }
    ensures { slice_get flags.now item ≡ Some result }
{
    flags[item as usize]
}
