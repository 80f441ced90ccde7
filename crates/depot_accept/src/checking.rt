//! The checks of a statement.
ghost use Rattle.std.specs.Prelude.{◌≡◌, ◌<◌, List, length, Ok, None, Some, slice_get};
ghost use Rattle.std.specs.List.{AllByRecursion, list_any};
ghost use Rattle.depot_base.specs.declared.record.Record.{Record};
ghost use Rattle.depot_base.specs.declared.statement.Signed.{Signed};
ghost use Rattle.depot_base.specs.declared.statement.Statement.TheVariants as statements;
ghost use Rattle.depot_base.specs.Statement.{writer_of};
ghost use Rattle.depot_model.specs.lists.Items.{AreItemsOf};
ghost use Rattle.depot_model.specs.lists.Lists.{first};
ghost use Rattle.depot_model.specs.updates.Order.{parents as parents_of};
ghost use Rattle.depot_model.specs.texts.Roster.{key_of, is_signed};
ghost use Rattle.depot_model.specs.texts.Texts.{IsSigned, IsStatement, id_of_statement};
ghost use Rattle.depot_model.specs.checks.Checks.{given_statement, is_kept, content_of, named_opponent, exposed};
ghost use Rattle.depot_graph.specs.UpdateRows.{IsJoinedRow};
ghost use Rattle.depot_accept.specs.StateView.{IsStateOf, setting};
ghost use Rattle.depot_accept.specs.OwnVouchers.{has_body_of_voucher};
ghost use Rattle.depot_accept.specs.Content.{TellsNoFork};
ghost use Rattle.depot_accept.specs.CheckResults.{IsChecked, AreDue};
ghost use Rattle.depot_accept.specs.AfterSignature.{IsCheckedAfterSignature, IsOpponent};
ghost use Rattle.depot_accept.specs.ToSignature.{IsCheckedToSignature};

use crate::answer::{CheckError, Front, Parents, Pass};
use crate::content::{Content, check_content};
use crate::state::State;
use depot_base::{Check, Hash32, PublicKey, Signed, Statement, Update, Voucher};
use depot_kept::Found;
use depot_model::{Past, Scheme};

impl<S: Scheme> State<S> {
    /// Checks a statement with this id, and answers as the journal with this state does: the statement is new or known,
    /// or the first check that fails, and the kept statement by which the conviction of its writer is due, if one is.
    /// For a new update it also returns the items of the parents and their joined row. Memory comes at updates alone.
    /// The state stays.
    ///
    /// The cost, which no clause states: it verifies one signature at most, and none where an earlier check answers; it
    /// searches each parent once; it joins the parents' rows once; and it hashes the past only where no check before
    /// that of the history fails.
    pub fn check(&self, signed: &Signed, id: &Hash32) -> Result<Pass, CheckError>
        requires text { IsSigned signed.now }
        requires id { id.now ≡ id_of_statement signed.now.statement }
        ensures { (J : List Record) → IsStateOf J self.now → IsChecked (setting S.verifies self.now) J signed.now result }
    {
        match self.check_to_signature(signed, id) {
            Front::Known => Ok(Pass::Known),
            Front::Refused(check) => Err(refused(check)),
            Front::Passed => self.check_after_signature(signed, id),
        }
    }

    /// Runs the checks up to that of the signature: whether the statement is known or new, and the first of them that
    /// fails. It verifies one signature at most, and takes no memory.
    pub fn check_to_signature(&self, signed: &Signed, id: &Hash32) -> Front
        requires text { IsSigned signed.now }
        requires id { id.now ≡ id_of_statement signed.now.statement }
        ensures { (J : List Record) → IsStateOf J self.now → IsCheckedToSignature (setting S.verifies self.now) J signed.now result }
    {
        let writer = signed.statement.writer();
        let Some(key) = self.roster.key_of(writer) else {
            return Front::Refused(Check::UnknownWriter(writer));
        };
        if self.is_kept(&signed.statement, id) {
            return Front::Known;
        }
        if writer == self.me {
            return Front::Refused(Check::NotMine(*id));
        }
        if !self.verifies(&key, signed) {
            return Front::Refused(Check::BadSignature(writer));
        }
        Front::Passed
    }

    /// Whether the signature of a statement verifies under this key, its writer's.
    fn verifies(&self, key: &PublicKey, signed: &Signed) -> bool
        requires { key_of self.now.listed (writer_of signed.now.statement) ≡ Some key.now }
        ensures { result ≡ is_signed S.verifies self.now.listed signed.now }
    {
        self.scheme.verify(
            key,
            signed.statement.seq(),
            signed.body.as_slice(),
            signed.signature.as_slice(),
        )
    }

    /// Runs the checks after that of the signature, for a new statement that passes those up to it: the first that
    /// fails, and the kept statement by which the conviction of its writer is due, if one is. Memory comes at updates
    /// alone.
    pub fn check_after_signature(&self, signed: &Signed, id: &Hash32) -> Result<Pass, CheckError>
        requires text { IsSigned signed.now }
        requires id { id.now ≡ id_of_statement signed.now.statement }
        ensures { (J : List Record) → IsStateOf J self.now → IsCheckedAfterSignature J signed.now result }
    {
        match &signed.statement {
            Statement::Update(update) => self.check_update(signed, update, id),
            Statement::Voucher(voucher) => self.check_voucher(signed, voucher, id),
        }
    }

    /// The same for an update.
    fn check_update(
        &self,
        signed: &Signed,
        update: &Update,
        id: &Hash32,
    ) -> Result<Pass, CheckError>
        requires text { IsSigned signed.now }
        requires update { signed.now.statement ≡ statements.Update update.now }
        requires id { id.now ≡ id_of_statement signed.now.statement }
        ensures { (J : List Record) → IsStateOf J self.now → IsCheckedAfterSignature J signed.now result }
    {
        match check_content(self.alloc, &self.graph, update) {
            Err(_) => Err(CheckError::Memory),
            Ok(Content::Failed(check)) => Err(CheckError::Refused {
                check,
                against: self.exposing_prev(signed, update, id, &check),
            }),
            Ok(Content::Passed(parents)) => self.check_fork(signed, update, id, parents),
        }
    }

    /// The same for an update whose parents are accepted and whose content passes its checks.
    fn check_fork(
        &self,
        signed: &Signed,
        update: &Update,
        id: &Hash32,
        parents: Parents,
    ) -> Result<Pass, CheckError>
        requires text { IsSigned signed.now }
        requires update { signed.now.statement ≡ statements.Update update.now }
        requires id { id.now ≡ id_of_statement signed.now.statement }
        requires parents { AreItemsOf self.now.accepted (parents_of update.now) parents.items.items }
        requires row { IsJoinedRow self.now.accepted parents.items.items parents.row.items }
        ensures { (J : List Record) → IsStateOf J self.now → first (content_of J signed.now.statement) ≡ None → IsCheckedAfterSignature J signed.now result }
    {
        let is_vouched = self.vouched.is_vouched(id);
        if self.vouched.is_convicted(update.writer) {
            if is_vouched {
                return Ok(Pass::Update {
                    against: None,
                    parents,
                });
            }
            return Err(refused(Check::Convicted(update.writer)));
        }
        let found = self.seen.contradiction(&signed.statement, id);
        if is_vouched {
            return Ok(Pass::Update {
                against: found,
                parents,
            });
        }
        match found {
            Some(found) => Err(self.forked(id, found)),
            None => Ok(Pass::Update {
                against: None,
                parents,
            }),
        }
    }

    /// The same for a voucher.
    fn check_voucher(
        &self,
        signed: &Signed,
        voucher: &Voucher,
        id: &Hash32,
    ) -> Result<Pass, CheckError>
        requires text { IsSigned signed.now }
        requires voucher { signed.now.statement ≡ statements.Voucher voucher.now }
        requires id { id.now ≡ id_of_statement signed.now.statement }
        ensures { (J : List Record) → IsStateOf J self.now → IsCheckedAfterSignature J signed.now result }
    {
        if self.vouched.is_convicted(voucher.node) {
            return Err(refused(Check::VoucherConvicted(voucher.node)));
        }
        match self.seen.contradiction(&signed.statement, id) {
            Some(found) => Err(self.forked(id, found)),
            None => Ok(Pass::Voucher),
        }
    }

    /// The refusal of a statement with this id that contradicts a kept one.
    fn forked(&self, id: &Hash32, found: Found) -> CheckError
        requires { found.index < length self.now.foreign }
        ensures { (kept : Signed) → slice_get self.now.foreign found.index ≡ Some kept → result ≡ CheckError.Refused (Check.Forked (id_of_statement kept.statement) id.now found.kind) (Some found) }
    {
        CheckError::Refused {
            check: Check::Forked {
                kept: self.seen.at(found.index).id,
                came: *id,
                kind: found.kind,
            },
            against: Some(found),
        }
    }

    /// The kept statement by which the conviction of an update's writer is due where this check of its content fails:
    /// its prev, if the update isn't above it and its writer isn't convicted.
    fn exposing_prev(
        &self,
        signed: &Signed,
        update: &Update,
        id: &Hash32,
        check: &Check,
    ) -> Option<Found>
        requires text { IsSigned signed.now }
        requires update { signed.now.statement ≡ statements.Update update.now }
        requires id { id.now ≡ id_of_statement signed.now.statement }
        requires check { TellsNoFork check.now }
        ensures { (J : List Record) → IsStateOf J self.now → AreDue J signed.now result (exposed J (given_statement signed.now) check.now) }
    {
        let Check::Backward(prev) = check else {
            return None;
        };
        if self.vouched.is_convicted(update.writer) {
            return None;
        }
        self.find_contrary(prev, &signed.statement, id)
    }

    /// The first kept update with the id `prev`, if the statement contradicts it, and how.
    fn find_contrary(&self, prev: &Hash32, statement: &Statement, id: &Hash32) -> Option<Found>
        requires text { IsStatement statement.now }
        requires id { id.now ≡ id_of_statement statement.now }
        ensures { IsOpponent self.now.foreign (named_opponent self.now.foreign prev.now statement.now) result }
    {
        let Some(index) = self.seen.find(prev) else {
            return None;
        };
        match self.seen.kind_with(index, statement, id) {
            Some(kind) => Some(Found { kind, index }),
            None => None,
        }
    }

    /// Whether the statement is known: an update of its id is accepted, or a voucher of its body is kept.
    fn is_kept(&self, statement: &Statement, id: &Hash32) -> bool
        requires text { IsStatement statement.now }
        requires id { id.now ≡ id_of_statement statement.now }
        ensures { (J : List Record) → IsStateOf J self.now → result ≡ is_kept J statement.now }
    {
        match statement {
            Statement::Update(_) => self.graph.find(id).is_some(),
            Statement::Voucher(voucher) => {
                self.is_own_voucher(voucher) || self.seen.holds(statement, id)
            }
        }
    }

    /// Whether this is one of the node's own vouchers.
    fn is_own_voucher(&self, voucher: &Voucher) -> bool
        requires { IsStatement (statements.Voucher voucher.now) }
        ensures { result ≡ list_any (has_body_of_voucher voucher.now) self.now.own_vouchers }
    {
        voucher.node == self.me && has_voucher(self.own_vouchers.as_slice(), voucher)
    }
}

/// Whether this is one of these vouchers.
fn has_voucher(vouchers: &[Voucher], voucher: &Voucher) -> bool
    requires texts { AllByRecursion (λ v. IsStatement (statements.Voucher v)) vouchers.now }
    requires text { IsStatement (statements.Voucher voucher.now) }
    ensures { result ≡ list_any (has_body_of_voucher voucher.now) vouchers.now }
{
    for own in vouchers {
        if own.is_same(voucher) {
            return true;
        }
    }
    false
}

/// A refusal by which no conviction is due.
fn refused(check: Check) -> CheckError
    ensures { result ≡ CheckError.Refused check None }
{
    CheckError::Refused {
        check,
        against: None,
    }
}
