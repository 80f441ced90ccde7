//! What a command asks a node for, and of readers.
ghost use Rattle.std.specs.Prelude.{◌≡◌, ◌∷◌, ℕ, List, [], Bool, IfOk, None, Some, is_some, option_copied};
ghost use Rattle.depot_base.specs.Writes.{one_change};
ghost use Rattle.depot_requests.specs.Requests.{IsRequest};
ghost use Rattle.depot_script.specs.Scripts.{FitsCommand};
ghost use Rattle.depot_session.specs.Sessions.{AsksOfReaders, AsksTheNode, Session, asked_in, asks_for, asks_reader};
ghost use Rattle.depot_session.specs.Sessions as sessions;

use depot_base::{Bytes, Changes, Hash32, Ids, Key, Memory, Value};
use depot_lines::FileName;
use depot_requests::{ReaderRequest, ReaderUse, Request};
use depot_script::Command;
use std::alloc::Global;

/// How many bytes of a stream a script hands to a feed at once. The result doesn't depend on it.
pub const TAKEN_PIECE: u32 = 65_536;

/// The one change that gives a key a value, both copied.
fn one_change(alloc: Global, key: &Key, value: &Value) -> Result<Changes, Memory>
    ensures { IfOk result (λ changes. changes ≡ one_change key.now value.now) }
{
    Changes::one(alloc, key.copy()?, value.copy()?)
}

/// The list of one id, which is copied.
fn one_id(alloc: Global, id: &Hash32) -> Result<Ids, Memory>
    ensures { IfOk result (λ ids. ids ≡ id.now ∷ []) }
{
    let mut ids = Ids::new(alloc);
    ids.push(*id)?;
    Ok(ids)
}

/// The file whose bytes a command gives a node, if any.
pub fn file_asked(command: &Command) -> Option<&FileName>
    ensures { option_copied result ≡ sessions.file_asked command.now }
{
    match command {
        Command::Bundle { hello, .. } => Some(hello),
        Command::Take { file } | Command::Sign { file } => Some(file),
        _ => None,
    }
}

/// The request of a command without a file. What it names is copied.
pub fn request_alone(alloc: Global, command: &Command) -> Result<Request, Memory>
    requires asks { AsksTheNode command.now }
    requires alone { sessions.file_asked command.now ≡ None }
    requires fits { FitsCommand command.now }
    ensures request { IfOk result (λ r. IsRequest r) }
    ensures asks { IfOk result (λ r. (s : Session) → asked_in s command.now ≡ asks_for r) }
{
    match command {
        Command::Put { key, value } => Ok(Request::Put(one_change(alloc, key, value)?)),
        Command::Puts { changes } => Ok(Request::Put(changes.copy()?)),
        Command::Get { key } => Ok(Request::Get(key.copy()?)),
        Command::Hello { .. } => Ok(Request::Hello),
        Command::Receipt { id } => Ok(Request::Receipt(one_id(alloc, id)?)),
        Command::Settled { id, k } => Ok(Request::Settled(*id, *k)),
        Command::Checkpoint { .. } => Ok(Request::Checkpoint),
        _ => unreachable!(),
    }
}

/// The request of a command with these bytes of its file.
pub fn request_with(command: &Command, bytes: Bytes) -> Request
    requires { (name : List ℕ) × (sessions.file_asked command.now ≡ Some name) }
    ensures request { IsRequest result }
    ensures asks { (s : Session) (name : List ℕ) → sessions.file_asked command.now ≡ Some name → s.files name ≡ Some bytes → asked_in s command.now ≡ asks_for result }
{
    match command {
        Command::Bundle { .. } => Request::Bundle(bytes),
        Command::Take { .. } => {
            Request::Take {
                stream: bytes,
                piece: TAKEN_PIECE,
            }
        }
        Command::Sign { .. } => Request::Sign(bytes),
        _ => unreachable!(),
    }
}

/// The file whose bytes a command asks readers with, if any, depending on whether a reader was made before.
pub fn reader_file(command: &Command, made: bool) -> Option<&FileName>
    ensures { option_copied result ≡ sessions.reader_file made command.now }
{
    match command {
        Command::Trim { file } => Some(file),
        Command::Tgive { file } if made => Some(file),
        _ => None,
    }
}

/// What a command asks of readers without a file. What it names is copied.
pub fn reader_request_alone(alloc: Global, command: &Command) -> Result<ReaderRequest, Memory>
    requires asks { AsksOfReaders command.now }
    requires alone { (made : Bool) × (sessions.reader_file made command.now ≡ None) }
    ensures { IfOk result (λ r. (s : Session) → sessions.reader_file (is_some s.reader) command.now ≡ None → asked_in s command.now ≡ asks_reader r) }
{
    match command {
        Command::Tgive { .. } => Ok(ReaderRequest::Use(ReaderUse::Give(Bytes::new(alloc)))),
        Command::Tget { key } => Ok(ReaderRequest::Use(ReaderUse::Get(key.copy()?))),
        _ => unreachable!(),
    }
}

/// What a command asks of readers with these bytes of its file.
pub fn reader_request_with(command: &Command, bytes: Bytes) -> ReaderRequest
    requires { (made : Bool) × ((name : List ℕ) × (sessions.reader_file made command.now ≡ Some name)) }
    ensures { (s : Session) (name : List ℕ) → sessions.reader_file (is_some s.reader) command.now ≡ Some name → s.files name ≡ Some bytes → asked_in s command.now ≡ asks_reader result }
{
    match command {
        Command::Trim { .. } => ReaderRequest::Trim(bytes),
        Command::Tgive { .. } => ReaderRequest::Use(ReaderUse::Give(bytes)),
        _ => unreachable!(),
    }
}
