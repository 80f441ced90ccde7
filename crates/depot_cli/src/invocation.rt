//! The commands, and which words ask for them.
ghost use Rattle.std.specs.Prelude.{◌≡◌, IfOk, None, Some};
ghost use Rattle.std.specs.List.{list_all};
ghost use Rattle.depot_model.specs.lists.Lists.{when};
ghost use Rattle.depot_lines.specs.FileNames.{is_file_name};
ghost use Rattle.depot_cli.specs.Words.{audit_command, trace_names, command_of, command_by_number, command_by, command_for, command_with, scan_command, key_command, judge_command, load_command, node_command, replay_command, served_words, server_words};

use crate::given_words::{hash_word, height_word, id_word, key_word, load_word, name_word};
use crate::height::Height;
use crate::trace_names::{FileNames, TraceNames};
use crate::word::Word;
use depot_base::{Hash32, Key, Memory, NodeId};
use depot_lines::FileName;
use depot_traces::MOST_TRACES;
use std::alloc::Global;

/// What the words ask for.
#[derive(Debug, Drop)]
pub enum Invocation {
    /// `scan LOG KEY`: prints the latest writes of a key in a log. The name of the log, and the key.
    Scan(Word, Key),
    /// `key SEED HEIGHT`: the root of a Winternitz key.
    Key(Hash32, Height),
    /// `judge ROSTER PROOF`: whether a text convicts a node. The names of the roster and of the text.
    Judge(Word, Word),
    /// `replay SCHEDULE`: the transcript of a schedule. The name of the schedule.
    Replay(Word),
    /// `load NUMBER`: sums up the replay of a long schedule. The number that makes it.
    Load(u32),
    /// `node ROSTER SEED HEIGHT ID SCRIPT`: runs a script on a node over the disk.
    Node(NodeWords),
    /// `audit ROSTER TRACE..`: whether what nodes did keeps the headline. The name of the roster, and those of 1 to 32 traces.
    Audit(Word, TraceNames),
}

/// What `node` is given: the names of the roster and of the script, and the node's seed, height and number.
#[derive(Debug, Drop)]
pub struct NodeWords {
    pub roster: Word,
    pub seed: Hash32,
    pub height: Height,
    pub id: NodeId,
    pub script: Word,
}

/// What `serve` is given: the name of the roster, and the node's seed, height and number.
#[derive(Debug, Drop)]
pub struct ServerWords {
    pub roster: Word,
    pub seed: Hash32,
    pub height: Height,
    pub id: NodeId,
}

/// The command of `scan`'s two words.
fn scan_command(alloc: Global, log: &Word, key: &Word) -> Result<Option<Invocation>, Memory>
    ensures { IfOk result (λ c. c ≡ scan_command log.now key.now) }
{
    let Some(log) = name_word(log)? else {
        return Ok(None);
    };
    let Some(key) = key_word(alloc, key)? else {
        return Ok(None);
    };
    Ok(Some(Invocation::Scan(log, key)))
}

/// The command of `key`'s two words.
fn key_command(alloc: Global, seed: &Word, height: &Word) -> Result<Option<Invocation>, Memory>
    ensures { IfOk result (λ c. c ≡ key_command seed.now height.now) }
{
    let Some(seed) = hash_word(alloc, seed)? else {
        return Ok(None);
    };
    let Some(height) = height_word(height) else {
        return Ok(None);
    };
    Ok(Some(Invocation::Key(seed, height)))
}

/// The command of `judge`'s two words.
fn judge_command(roster: &Word, proof: &Word) -> Result<Option<Invocation>, Memory>
    ensures { IfOk result (λ c. c ≡ judge_command roster.now proof.now) }
{
    let Some(roster) = name_word(roster)? else {
        return Ok(None);
    };
    let Some(proof) = name_word(proof)? else {
        return Ok(None);
    };
    Ok(Some(Invocation::Judge(roster, proof)))
}

/// The command of `replay`'s word.
fn replay_command(schedule: &Word) -> Result<Option<Invocation>, Memory>
    ensures { IfOk result (λ c. c ≡ replay_command schedule.now) }
{
    match name_word(schedule)? {
        Some(schedule) => Ok(Some(Invocation::Replay(schedule))),
        None => Ok(None),
    }
}

/// The command of `load`'s word.
fn load_command(number: &Word) -> Option<Invocation>
    ensures { result ≡ load_command number.now }
{
    match load_word(number) {
        Some(number) => Some(Invocation::Load(number)),
        None => None,
    }
}

/// The command of `node`'s five words.
fn node_command(
    alloc: Global,
    roster: &Word,
    seed: &Word,
    height: &Word,
    id: &Word,
    script: &Word,
) -> Result<Option<Invocation>, Memory>
    ensures { IfOk result (λ c. c ≡ node_command roster.now seed.now height.now id.now script.now) }
{
    let Some(roster) = name_word(roster)? else {
        return Ok(None);
    };
    let Some(seed) = hash_word(alloc, seed)? else {
        return Ok(None);
    };
    let Some(height) = height_word(height) else {
        return Ok(None);
    };
    let Some(id) = id_word(id) else {
        return Ok(None);
    };
    let Some(script) = name_word(script)? else {
        return Ok(None);
    };
    Ok(Some(Invocation::Node(NodeWords {
        roster,
        seed,
        height,
        id,
        script,
    })))
}

/// The names of files that words are.
fn file_names(alloc: Global, words: &[Word]) -> Result<Option<FileNames>, Memory>
    ensures { IfOk result (λ names. names ≡ when (list_all is_file_name words.now) words.now) }
{
    let mut names = FileNames::new(alloc);
    for word in words {
        match FileName::new(alloc, word.text().as_bytes())? {
            Some(name) => names.push(name)?,
            None => return Ok(None),
        }
    }
    Ok(Some(names))
}

/// The names of 1 to 32 trace files that words are.
#[tactic(auto, using(crate::proofs::FileWords::is_kept))]
fn trace_names(alloc: Global, words: &[Word]) -> Result<Option<TraceNames>, Memory>
    ensures { IfOk result (λ names. names ≡ trace_names words.now) }
{
    if words.is_empty() || words.len() > MOST_TRACES as usize {
        return Ok(None);
    }
    match file_names(alloc, words)? {
        Some(names) => Ok(Some(TraceNames::new(names))),
        None => Ok(None),
    }
}

/// The command of `audit`'s words.
fn audit_command(
    alloc: Global,
    roster: &Word,
    traces: &[Word],
) -> Result<Option<Invocation>, Memory>
    ensures { IfOk result (λ c. c ≡ audit_command roster.now traces.now) }
{
    let Some(roster) = name_word(roster)? else {
        return Ok(None);
    };
    let Some(traces) = trace_names(alloc, traces)? else {
        return Ok(None);
    };
    Ok(Some(Invocation::Audit(roster, traces)))
}

/// The command of two words.
#[tactic(auto, unfolding(crate::specs::Words::command_with))]
fn two_words(verb: &Word, word: &Word) -> Result<Option<Invocation>, Memory>
    ensures { IfOk result (λ c. c ≡ command_with verb.now word.now) }
{
    if verb.is("replay") {
        return replay_command(word);
    }
    if verb.is("load") {
        return Ok(load_command(word));
    }
    Ok(None)
}

/// The command of three words.
#[tactic(auto, unfolding(crate::specs::Words::command_by))]
fn three_words(
    alloc: Global,
    verb: &Word,
    first: &Word,
    second: &Word,
) -> Result<Option<Invocation>, Memory>
    ensures { IfOk result (λ c. c ≡ command_by verb.now first.now second.now) }
{
    if verb.is("scan") {
        return scan_command(alloc, first, second);
    }
    if verb.is("key") {
        return key_command(alloc, first, second);
    }
    if verb.is("judge") {
        return judge_command(first, second);
    }
    Ok(None)
}

/// The command of six words.
#[tactic(auto, unfolding(crate::specs::Words::command_for))]
fn six_words(
    alloc: Global,
    verb: &Word,
    roster: &Word,
    seed: &Word,
    height: &Word,
    id: &Word,
    script: &Word,
) -> Result<Option<Invocation>, Memory>
    ensures { IfOk result (λ c. c ≡ command_for verb.now roster.now seed.now height.now id.now script.now) }
{
    if verb.is("node") {
        return node_command(alloc, roster, seed, height, id, script);
    }
    Ok(None)
}

/// The command that the words are, or None where they are none.
pub fn parse(alloc: Global, words: &[Word]) -> Result<Option<Invocation>, Memory>
    ensures { IfOk result (λ c. c ≡ command_of words.now) }
{
    if words.len() >= 2 && words[0].is("audit") {
        return audit_command(alloc, &words[1], &words[2..]);
    }
    by_number(alloc, words)
}

/// The command that the words are by their number: any but `audit`.
fn by_number(alloc: Global, words: &[Word]) -> Result<Option<Invocation>, Memory>
    ensures { IfOk result (λ c. c ≡ command_by_number words.now) }
{
    match words {
        [verb, word] => two_words(verb, word),
        [verb, first, second] => three_words(alloc, verb, first, second),
        [verb, roster, seed, height, id, script] => {
            six_words(alloc, verb, roster, seed, height, id, script)
        }
        _ => Ok(None),
    }
}

/// What `serve`'s four words ask for.
fn server_words(
    alloc: Global,
    roster: &Word,
    seed: &Word,
    height: &Word,
    id: &Word,
) -> Result<Option<ServerWords>, Memory>
    ensures { IfOk result (λ n. n ≡ server_words roster.now seed.now height.now id.now) }
{
    let Some(roster) = name_word(roster)? else {
        return Ok(None);
    };
    let Some(seed) = hash_word(alloc, seed)? else {
        return Ok(None);
    };
    let Some(height) = height_word(height) else {
        return Ok(None);
    };
    let Some(id) = id_word(id) else {
        return Ok(None);
    };
    Ok(Some(ServerWords {
        roster,
        seed,
        height,
        id,
    }))
}

/// What the words give `serve`, or `None` if they aren't `serve ROSTER SEED HEIGHT ID`.
#[tactic(auto, unfolding(crate::specs::Words::served_words))]
pub fn parse_served(alloc: Global, words: &[Word]) -> Result<Option<ServerWords>, Memory>
    ensures { IfOk result (λ n. n ≡ served_words words.now) }
{
    match words {
        [verb, roster, seed, height, id] if verb.is("serve") => {
            server_words(alloc, roster, seed, height, id)
        }
        _ => Ok(None),
    }
}
