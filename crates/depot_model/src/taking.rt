//! What holds of the answers to texts.
ghost use Rattle.depot_model.specs.checks.Taking.{Form, HaveOneAnswer};

/// A text has one answer, and the journal one growth: unless memory runs out or the disk fails, a node answers and
/// appends what the function says.
pub fn texts_have_one_answer()
    ensures { (form : Form) → HaveOneAnswer form }
{}
