//! What is asked of readers is done: the one dispatch over requests of readers.
ghost use Rattle.std.specs.Prelude.{◌≡◌, ℕ, List, Some, false, IfOk};
ghost use Rattle.depot_base.specs.declared.record.Record.{Record};
ghost use Rattle.depot_model.specs.checks.Checks.{Setting};
ghost use Rattle.depot_model.specs.readers.Readers.{Reader, trim_of};
ghost use Rattle.depot_requests.specs.ReaderRequests.{made_served};
ghost use Rattle.depot_service.specs.ReaderCalls.{IsReaderServed, IsSomebodys, ServesReader, UsesLast, UsesReader, reply_of_untrimmed};
ghost use Rattle.depot_trim.specs.ReaderAnswers.{Trims};
ghost use Rattle.depot_trim.specs.ReaderView.{IsReaderOf};

use crate::last_reader::LastReader;
use crate::readers::{feed_reader, reader_words};
use depot_base::{Bytes, Key, Memory};
use depot_model::Scheme;
use depot_queries::LocalNode;
use depot_requests::{ReaderReply, ReaderRequest, ReaderUse, Reason};
use depot_sign::Roster;
use depot_trim::{TrimError, Trimmed, trim};
use std::alloc::Global;

/// What is replied where a reader was to be made of a node.
#[derive(Drop)]
pub struct MadeReader<S: Scheme> {
    /// The reply.
    pub reply: ReaderReply,
    /// The reader, if it was made.
    pub reader: Option<Trimmed<S>>,
}

/// What is replied where no reader was made, unless for want of memory.
fn unmade_reply(error: TrimError) -> Result<ReaderReply, Memory>
    ensures { IfOk result (λ reply. reply_of_untrimmed error ≡ Some reply) }
{
    match error {
        TrimError::IllFormed(at) => Ok(ReaderReply::Refused(Reason::IllFormed(at))),
        TrimError::OtherRoster { given, .. } => {
            Ok(ReaderReply::Refused(Reason::OtherRoster(given)))
        }
        TrimError::Unknown(id) => Ok(ReaderReply::Refused(Reason::Unknown(id))),
        TrimError::Unsigned(node) => Ok(ReaderReply::Unsigned(node)),
        TrimError::Memory => Err(Memory),
    }
}

/// What is replied where this was answered when a reader was to be made.
fn made_reader<S: Scheme>(made: Result<Trimmed<S>, TrimError>) -> Result<MadeReader<S>, Memory>
    ensures { IfOk result (λ m. (here : Setting) (J : List Record) (text : List ℕ) → Trims S.verifies here J text made → IsReaderServed S.verifies (made_served (trim_of here J text)) m.reply m.reader) }
{
    match made {
        Ok(reader) => Ok(MadeReader {
            reply: ReaderReply::Made {
                kept: reader.kept(),
                accepted: reader.accepted(),
            },
            reader: Some(reader),
        }),
        Err(error) => {
            let reply = unmade_reply(error)?;
            Ok(MadeReader {
                reply,
                reader: None,
            })
        }
    }
}

/// Makes a reader of a running node, below the checkpoint of this text. The reply and the reader are the defined ones;
/// `Memory` may come instead.
pub fn make_reader<S: Scheme, N: LocalNode<Of = S>>(
    alloc: Global,
    node: &N,
    roster: &Roster,
    scheme: S,
    text: &[u8],
) -> Result<MadeReader<S>, Memory>
    requires runs { N.stopped node.now ≡ false }
    requires roster { roster.now ≡ (N.stands node.now).listed }
    ensures { IfOk result (λ m. IsReaderServed S.verifies (made_served (trim_of (N.stands node.now) (N.records node.now) text.now)) m.reply m.reader) }
{
    made_reader(trim(alloc, node, roster.copy()?, scheme, text))
}

/// Gives a reader a stream. The reply and the reader then are the defined ones; on `Memory` the reader has taken the
/// frames before the one for which there was none.
fn give_reader<S: Scheme>(reader: &mut Trimmed<S>, stream: &[u8]) -> Result<ReaderReply, Memory>
    requires { (R : Reader) × IsReaderOf S.verifies R reader.old }
    ensures { (R : Reader) → IsReaderOf S.verifies R reader.old → UsesReader S.verifies R (ReaderUse.Give stream.now) result reader.new }
{
    let told = feed_reader(reader, stream)?;
    Ok(ReaderReply::Took {
        counts: told.counts,
        full: told.full,
    })
}

/// Reads a key of a reader. The reply is the defined one; `Memory` may come instead.
fn read_reader<S: Scheme>(
    alloc: Global,
    reader: &Trimmed<S>,
    key: &Key,
) -> Result<ReaderReply, Memory>
    requires { (R : Reader) × IsReaderOf S.verifies R reader.now }
    ensures { (R : Reader) → IsReaderOf S.verifies R reader.now → UsesReader S.verifies R (ReaderUse.Get key.now) result reader.now }
{
    let words = reader_words(alloc, reader, key)?;
    Ok(ReaderReply::Read(words))
}

/// Uses a reader. The reply and the reader then are the defined ones. On `Memory` a reader that was given a stream has
/// taken the frames before the one for which there was none, and one whose key was read is unchanged.
pub fn use_reader<S: Scheme>(
    alloc: Global,
    reader: &mut Trimmed<S>,
    asked: &ReaderUse,
) -> Result<ReaderReply, Memory>
    requires { (R : Reader) × IsReaderOf S.verifies R reader.old }
    ensures { (R : Reader) → IsReaderOf S.verifies R reader.old → UsesReader S.verifies R asked.now result reader.new }
{
    match asked {
        ReaderUse::Give(stream) => give_reader(reader, stream.as_slice()),
        ReaderUse::Get(key) => read_reader(alloc, reader, key),
    }
}

/// Makes a reader of a node, below the checkpoint of this text. If none is made, the last one stays.
fn make_last<S: Scheme + Copy, N: LocalNode<Of = S>>(
    alloc: Global,
    node: &N,
    last: &mut LastReader<'_, S>,
    text: &Bytes,
) -> Result<ReaderReply, Memory>
    requires runs { N.stopped node.now ≡ false }
    requires roster { last.old.roster.now ≡ (N.stands node.now).listed }
    ensures serves { ServesReader S.verifies (N.stands node.now) (N.records node.now) last.old.made (ReaderRequest.Trim text.now) result last.new.made }
    ensures means { (last.new.roster.now ≡ last.old.roster.now) × (last.new.scheme ≡ last.old.scheme) }
{
    let MadeReader { reply, reader } = make_reader(
        alloc,
        node,
        last.roster,
        last.scheme,
        text.as_slice(),
    )?;
    match reader {
        Some(reader) => {
            last.made = Some(reader);
            Ok(reply)
        }
        None => Ok(reply),
    }
}

/// Uses the last reader, if there is one.
fn use_last<S: Scheme>(
    alloc: Global,
    made: &mut Option<Trimmed<S>>,
    asked: &ReaderUse,
) -> Result<ReaderReply, Memory>
    requires { IsSomebodys S.verifies made.old }
    ensures { UsesLast S.verifies made.old asked.now result made.new }
{
    match made {
        Some(reader) => use_reader(alloc, reader, asked),
        None => Ok(ReaderReply::NoReader),
    }
}

/// Carries out a request of readers over a running node, and returns its reply. The reply and the last reader then are
/// the defined ones; `Memory` may come instead, and then the last reader is unchanged, except that it may have taken a
/// prefix of a stream's frames. The node is unchanged.
pub fn serve_reader<S: Scheme + Copy, N: LocalNode<Of = S>>(
    alloc: Global,
    node: &N,
    last: &mut LastReader<'_, S>,
    request: &ReaderRequest,
) -> Result<ReaderReply, Memory>
    requires runs { N.stopped node.now ≡ false }
    requires roster { last.old.roster.now ≡ (N.stands node.now).listed }
    requires reader { IsSomebodys S.verifies last.old.made }
    ensures serves { ServesReader S.verifies (N.stands node.now) (N.records node.now) last.old.made request.now result last.new.made }
    ensures means { (last.new.roster.now ≡ last.old.roster.now) × (last.new.scheme ≡ last.old.scheme) }
{
    match request {
        ReaderRequest::Trim(text) => make_last(alloc, node, last, text),
        ReaderRequest::Use(asked) => use_last(alloc, &mut last.made, asked),
    }
}
