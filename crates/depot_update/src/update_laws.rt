//! What holds of all texts of a kind. Each law is a function with an empty body, whose contract is the law.
ghost use Rattle.std.specs.Prelude.{◌≡◌, ◌↔◌};
ghost use Rattle.depot_base.specs.Reading.{IsPrefixFree, IsReadInOneWay, IsClosedReadInOneWay};
ghost use Rattle.depot_base.specs.declared.update.Update.{Update};
ghost use Rattle.depot_base.specs.declared.statement.Statement.TheVariants as statements;
ghost use Rattle.depot_model.specs.texts.Texts.{update_body, statement, signed, proof, IsUpdate, IsStatement, text_of_update, text_of_statement};
ghost use Rattle.depot_model.specs.texts.Records.{record_text};

/// No body of an update is a prefix of the body of another.
pub fn updates_are_prefix_free()
    ensures { IsPrefixFree update_body }
{}

/// No body of a statement is a prefix of the body of another.
pub fn statements_are_prefix_free()
    ensures { IsPrefixFree statement }
{}

/// No text of a signed statement is a prefix of the text of another.
pub fn signed_are_prefix_free()
    ensures { IsPrefixFree signed }
{}

/// No text of a proof is a prefix of the text of another.
pub fn proofs_are_prefix_free()
    ensures { IsPrefixFree proof }
{}

/// A text is the body of one update, or it is no update's body and its first fault is at one place.
pub fn updates_are_read_in_one_way()
    ensures { IsReadInOneWay update_body }
{}

/// A text is the body of one statement, or it is no statement's body and its first fault is at one place.
pub fn statements_are_read_in_one_way()
    ensures { IsReadInOneWay statement }
{}

/// A text is that of one signed statement, or it is no signed statement's and its first fault is at one place.
pub fn signed_are_read_in_one_way()
    ensures { IsReadInOneWay signed }
{}

/// A text is that of one record, or it is no record's and its first fault is at one place.
pub fn records_are_read_in_one_way()
    ensures { IsClosedReadInOneWay record_text }
{}

/// A text is that of one proof, or it is no proof's and its first fault is at one place.
pub fn proofs_are_read_in_one_way()
    ensures { IsReadInOneWay proof }
{}

/// An update has the same body as an update and as a statement, and is in the ranges of the one format exactly where it
/// is in those of the other.
pub fn update_texts_agree()
    ensures text { (u : Update) → text_of_statement (statements.Update u) ≡ text_of_update u }
    ensures fits { (u : Update) → IsStatement (statements.Update u) ↔ IsUpdate u }
{}
