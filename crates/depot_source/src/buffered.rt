//! A source that is read ahead.
ghost use Rattle.std.specs.Prelude.{◌≡◌, ◌++◌, [], drop, IsTrue, IfOk, IfSome, OnOk, IsErrOf};
ghost use Rattle.depot_base.specs.Faults.{HasCause};
ghost use Rattle.depot_source.specs.Ahead.{BeginsWithMessage, IsReadAhead, IsReadAhead-prop, given_but};
ghost use Rattle.depot_source.specs.Pieces.{GivesMore};

use crate::hearing::{MOST_MESSAGE, said};
use crate::{Source, Waiting};
use depot_base::{Bytes, Memory};
use depot_outside::OutError;
use std::alloc::Global;

/// How many bytes are read ahead at most.
const MOST_AHEAD: usize = 16_384;

/// The body of the message with which bytes begin, if all of it is there.
fn first_body(bytes: &[u8]) -> Option<&[u8]>
    ensures { IfSome result (λ body. BeginsWithMessage bytes.now body.now) }
{
    if bytes.len() < 4 {
        return None;
    }
    let long = said(&bytes[..4]);
    let rest = &bytes[4..];
    if long == 0 || long > MOST_MESSAGE || rest.len() < long as usize {
        return None;
    }
    Some(&rest[..long as usize])
}

/// A source, read in larger pieces than are asked for.
#[derive(Drop)]
pub struct Buffered<I: Source> {
    alloc: Global,
    inner: I,
    piece: Bytes,
    // How many bytes of the piece were given.
    at: usize,
    over: bool,
    ghost ahead: { IsReadAhead (I.given inner) piece at } by { IsReadAhead-prop (I.given inner) piece at },
}

impl<I: Source> Buffered<I> {
    /// A source of the bytes of another. It takes no memory.
    pub fn new(alloc: Global, inner: I) -> Buffered<I>
        ensures given { ⟦<Buffered<I> as Source>⟧.given result ≡ I.given inner }
        ensures tells { ⟦<Buffered<I> as Source>⟧.tells result ≡ I.tells inner }
        ensures rest { ⟦<Buffered<I> as Source>⟧.rest result ≡ I.rest inner }
        ensures faults { ⟦<Buffered<I> as Source>⟧.faults result ≡ I.faults inner }
    {
        Buffered {
            alloc,
            inner,
            piece: Bytes::new(alloc),
            at: 0,
            over: false,
        }
    }
}

/// Reads the next piece of a source. On an error it gives none.
fn next_piece<I: Source>(alloc: Global, inner: &mut I) -> Result<Bytes, OutError>
    ensures piece { IfOk result (λ piece. I.given inner.new ≡ I.given inner.old ++ piece) }
    ensures end { IfOk result (λ piece. IsTrue (I.tells inner.old) → piece ≡ [] → I.rest inner.new ≡ []) }
    ensures failed { IsErrOf result OutError.Failed → I.given inner.new ≡ I.given inner.old }
    ensures memory { IsErrOf result OutError.Memory → GivesMore (I.given inner.old) (I.given inner.new) }
    ensures whole { IsTrue (I.tells inner.old) → I.given inner.new ++ I.rest inner.new ≡ I.given inner.old ++ I.rest inner.old }
    ensures tells { I.tells inner.new ≡ I.tells inner.old }
    ensures cause { HasCause (I.faults inner.old) (I.faults inner.new) (IsErrOf result OutError.Failed) }
{
    let mut piece = Bytes::new(alloc);
    match inner.read(MOST_AHEAD, &mut piece) {
        Ok(()) => Ok(piece),
        Err(error) => Err(error),
    }
}

impl<I: Source> Buffered<I> {
    /// Reads the next piece, if all of this one was given.
    fn fill(&mut self) -> Result<(), OutError>
        ensures given { OnOk result (⟦<Buffered<I> as Source>⟧.given self.new ≡ ⟦<Buffered<I> as Source>⟧.given self.old) }
        ensures end { OnOk result (IsTrue (I.tells self.old.inner) → drop self.new.at self.new.piece ≡ [] → I.rest self.new.inner ≡ []) }
        ensures failed { IsErrOf result OutError.Failed → ⟦<Buffered<I> as Source>⟧.given self.new ≡ ⟦<Buffered<I> as Source>⟧.given self.old }
        ensures memory { IsErrOf result OutError.Memory → GivesMore (⟦<Buffered<I> as Source>⟧.given self.old) (⟦<Buffered<I> as Source>⟧.given self.new) }
        ensures whole { IsTrue (I.tells self.old.inner) → ⟦<Buffered<I> as Source>⟧.given self.new ++ ⟦<Buffered<I> as Source>⟧.rest self.new ≡ ⟦<Buffered<I> as Source>⟧.given self.old ++ ⟦<Buffered<I> as Source>⟧.rest self.old }
        ensures over { self.new.over ≡ self.old.over }
        ensures tells { I.tells self.new.inner ≡ I.tells self.old.inner }
        ensures cause { HasCause (I.faults self.old.inner) (I.faults self.new.inner) (IsErrOf result OutError.Failed) }
    {
        if self.at < self.piece.as_slice().len() {
            return Ok(());
        }
        self.piece = next_piece(self.alloc, &mut self.inner)?;
        self.at = 0;
        Ok(())
    }
}

impl<I: Source> Source for Buffered<I> {
    ghost tells = { λ s. I.tells s.inner };

    ghost given = { λ s. given_but (I.given s.inner) s.piece s.at };

    ghost rest = { λ s. drop s.at s.piece ++ I.rest s.inner };

    ghost over = { λ s. s.over };

    ghost faults = { λ s. I.faults s.inner };

    fn read(&mut self, most: usize, into: &mut Bytes) -> Result<(), OutError> {
        self.over = false;
        self.fill()?;
        let left = &self.piece.as_slice()[self.at..];
        let given = &left[..left.len().min(most)];
        into.push_all(given)?;
        self.at += given.len();
        self.over = given.is_empty();
        Ok(())
    }
}

impl<I: Source> Waiting for Buffered<I> {
    fn next_waiting(&mut self, alloc: Global) -> Result<Option<Bytes>, Memory> {
        let Some(body) = first_body(&self.piece.as_slice()[self.at..]) else {
            return Ok(None);
        };
        let body = Bytes::from_slice(alloc, body)?;
        self.at += 4 + body.as_slice().len();
        Ok(Some(body))
    }
}
