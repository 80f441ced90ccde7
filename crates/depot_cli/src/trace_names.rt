//! The names of the trace files of an audit.
ghost use Rattle.std.specs.Prelude.{◌≡◌, ◌≤◌, length};
ghost use Rattle.depot_traces.specs.declared.trace.TheConstants.{MOST_TRACES};

use depot_base::Sequence;
use depot_lines::FileName;
use std::marker::Model;

/// Names of files.
pub type FileNames = Sequence<FileName>;

/// The names of 1 to 32 trace files. Contracts see them as a list.
#[derive(Debug, Drop)]
pub struct TraceNames(FileNames);

impl Model for TraceNames {
    ghost use Rattle.std.specs.Prelude.{List, ℕ, ◌≤◌, length};
    ghost use Rattle.depot_traces.specs.declared.trace.TheConstants.{MOST_TRACES};

    ghost Value = { List (List ℕ) };

    ghost view = { λ t. t.0 };

    ghost invariant = { λ t. (1 ≤ length t.0) × (length t.0 ≤ MOST_TRACES) };
}

impl TraceNames {
    /// These names.
    pub fn new(names: FileNames) -> TraceNames
        requires some { 1 ≤ length names }
        requires few { length names ≤ MOST_TRACES }
        ensures { result ≡ names }
    {
        TraceNames(names)
    }

    /// Them.
    pub fn as_slice(&self) -> &[FileName]
        ensures same { result.now ≡ self.now }
        ensures some { 1 ≤ length self.now }
        ensures few { length self.now ≤ MOST_TRACES }
    {
        self.0.as_slice()
    }
}
