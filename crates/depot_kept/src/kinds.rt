//! How two statements contradict each other, by what they say and their ids.
ghost use Rattle.std.specs.Prelude.{◌≡◌, ◌↔◌, IsTrue, false};
ghost use Rattle.std.specs.Str.{bytes_eq};
ghost use Rattle.depot_base.specs.Statement.{writer_of, seq_of};
ghost use Rattle.depot_model.specs.texts.Texts.{IsStatement, text_of_statement, id_of_statement, id_of_update};
ghost use Rattle.depot_model.specs.updates.Contradictions.{kind_of, goes_back};
ghost use Rattle.depot_kept.specs.Kinds.{kind_by_prev};

use depot_base::{Hash32, Kind, Statement, Update};

/// The first kind in which two statements, with these ids, contradict each other.
#[tactic(auto, using(crate::proofs::KindLaws::kinds))]
pub(crate) fn kind_between(
    kept: &Statement,
    kept_id: &Hash32,
    came: &Statement,
    came_id: &Hash32,
) -> Option<Kind>
    requires kept { IsStatement kept.now }
    requires came { IsStatement came.now }
    requires kept_id { kept_id.now ≡ id_of_statement kept.now }
    requires came_id { came_id.now ≡ id_of_statement came.now }
    ensures { result ≡ kind_of kept.now came.now }
{
    if kept.writer() != came.writer() {
        return None;
    }
    if have_one_body(kept, kept_id, came, came_id) {
        return None;
    }
    if kept.seq() == came.seq() {
        return Some(Kind::SameNumber);
    }
    kind_behind_number(kept, kept_id, came, came_id)
}

/// The first kind except that of the number, for two statements of one writer with different bodies and numbers.
#[tactic(auto, using(crate::proofs::KindLaws::kinds))]
fn kind_behind_number(
    kept: &Statement,
    kept_id: &Hash32,
    came: &Statement,
    came_id: &Hash32,
) -> Option<Kind>
    requires writer { writer_of kept.now ≡ writer_of came.now }
    requires bodies { bytes_eq (text_of_statement kept.now) (text_of_statement came.now) ≡ false }
    requires number { seq_of kept.now ≡ seq_of came.now → ⊥ }
    requires kept_id { kept_id.now ≡ id_of_statement kept.now }
    requires came_id { came_id.now ≡ id_of_statement came.now }
    ensures { result ≡ kind_of kept.now came.now }
{
    match kept {
        Statement::Voucher(_) => None,
        Statement::Update(first) => match came {
            Statement::Voucher(_) => None,
            Statement::Update(second) => kind_of_updates(first, kept_id, second, came_id),
        },
    }
}

fn kind_of_updates(
    first: &Update,
    first_id: &Hash32,
    second: &Update,
    second_id: &Hash32,
) -> Option<Kind>
    requires first { first_id.now ≡ id_of_update first.now }
    requires second { second_id.now ≡ id_of_update second.now }
    ensures { result ≡ kind_by_prev first.now second.now }
{
    if first.prev == second.prev {
        return Some(Kind::SamePrev);
    }
    if is_back(first, first_id, second) || is_back(second, second_id, first) {
        return Some(Kind::Backward);
    }
    None
}

/// Whether an update names another as its prev, and its seq or its clock isn't greater.
fn is_back(parent: &Update, parent_id: &Hash32, child: &Update) -> bool
    requires { parent_id.now ≡ id_of_update parent.now }
    ensures { result ≡ goes_back parent.now child.now }
{
    !child.prev.is_zeros()
        && *parent_id == child.prev
        && (child.seq <= parent.seq || child.clock <= parent.clock)
}

/// Whether two statements with these ids have one body.
pub(crate) fn have_one_body(a: &Statement, a_id: &Hash32, b: &Statement, b_id: &Hash32) -> bool
    requires a { IsStatement a.now }
    requires b { IsStatement b.now }
    requires a_id { a_id.now ≡ id_of_statement a.now }
    requires b_id { b_id.now ≡ id_of_statement b.now }
    ensures { result ≡ bytes_eq (text_of_statement a.now) (text_of_statement b.now) }
{
    *a_id == *b_id && is_same(a, b)
}

/// Whether two statements are one.
fn is_same(a: &Statement, b: &Statement) -> bool
    ensures { IsTrue result ↔ (a.now ≡ b.now) }
{
    match a {
        Statement::Update(first) => match b {
            Statement::Update(second) => first.is_same(second),
            Statement::Voucher(_) => false,
        },
        Statement::Voucher(first) => match b {
            Statement::Update(_) => false,
            Statement::Voucher(second) => first.is_same(second),
        },
    }
}
