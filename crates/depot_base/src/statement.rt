//! Statements, and statements with their signatures.
ghost use Rattle.std.specs.Prelude.{◌≡◌, IfOk};
ghost use Rattle.depot_base.specs.Statement.{writer_of, seq_of};

use crate::{Bytes, Memory, NodeId, Update, Voucher};

/// What a node signs.
#[derive(Debug, Drop)]
pub enum Statement {
    /// It wrote keys.
    Update(Update),
    /// It vouches for updates of others.
    Voucher(Voucher),
}

impl Statement {
    /// Who made it.
    pub fn writer(&self) -> NodeId
        ensures { result ≡ writer_of self.now }
    {
        match self {
            Statement::Update(update) => update.writer,
            Statement::Voucher(voucher) => voucher.node,
        }
    }

    /// Which of its writer's statements it is, from 0: the one-time leaf that signs it.
    pub fn seq(&self) -> u32
        ensures { result ≡ seq_of self.now }
    {
        match self {
            Statement::Update(update) => update.seq,
            Statement::Voucher(voucher) => voucher.seq,
        }
    }

    /// A copy of the statement.
    pub fn copy(&self) -> Result<Statement, Memory>
        ensures { IfOk result (λ s. s ≡ self.now) }
    {
        match self {
            Statement::Update(update) => Ok(Statement::Update(update.copy()?)),
            Statement::Voucher(voucher) => Ok(Statement::Voucher(voucher.copy()?)),
        }
    }
}

/// A signed statement. Where a decoder made it, `body` is the text of `statement`; each call that takes one requires
/// this.
#[derive(Debug, Drop)]
pub struct Signed {
    /// The statement.
    pub statement: Statement,
    /// Its text, which is signed.
    pub body: Bytes,
    /// The signature, at most 8,192 bytes. Nothing is said of whether it verifies.
    pub signature: Bytes,
}

impl Signed {
    /// A copy of the statement, its text and its signature.
    pub fn copy(&self) -> Result<Signed, Memory>
        ensures { IfOk result (λ s. s ≡ self.now) }
    {
        Ok(Signed {
            statement: self.statement.copy()?,
            body: self.body.copy()?,
            signature: self.signature.copy()?,
        })
    }
}
