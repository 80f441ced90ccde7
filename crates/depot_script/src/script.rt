//! A script.

use crate::Command;
use depot_base::Sequence;

/// Commands in their order. A parsed script has a text (`IsScript`), so it has at most 100,000.
pub type Script = Sequence<Command>;
