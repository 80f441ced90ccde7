//! Laws of starts. Each law is a function with an empty body, whose contract is the law.
ghost use Rattle.std.specs.Prelude.{◌≡◌, ℕ, List};
ghost use Rattle.depot_base.specs.declared.key.PublicKey.{PublicKey};
ghost use Rattle.depot_base.specs.declared.record.Record.{Record};
ghost use Rattle.depot_model.specs.checks.Checks.{Setting};
ghost use Rattle.depot_model.specs.journals.Lawful.{IsLawful};
ghost use Rattle.depot_model.specs.journals.Stops.{HasRecords};
ghost use Rattle.depot_node.specs.Starting.{IsStartedFrom, LawfulFilesStart, started};

/// A file with the records of a lawful journal starts the node again: with its key a start fails for lack of memory or
/// by the disk alone, and the started node has these records, or a birth where there are none.
pub fn lawful_files_start()
    ensures started { (here : Setting) (key : PublicKey) → LawfulFilesStart here key }
    ensures same { (here : Setting) (file : List ℕ) (J records : List Record) → HasRecords J file → IsLawful here J → IsStartedFrom here file records → records ≡ started here J }
{}
