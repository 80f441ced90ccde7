//! Whether the last reads of each key show the same writes.
ghost use Rattle.std.specs.Prelude.{◌≡◌, map, IfOk};
ghost use Rattle.std.specs.List.{filter_map, list_all};
ghost use Rattle.std.specs.Str.{bytes_eq};
ghost use Rattle.depot_world.specs.Summaries.{agree, agree_on, agrees, are_same, writes_under};

use crate::transcript_lines::TranscriptLine;
use depot_base::Memory;
use std::alloc::Global;

/// The writes that each read of this key shows.
#[tactic(auto, using(crate::proofs::of_loads::KeptLoads::kept))]
fn all_writes<'a>(
    alloc: Global,
    lines: &'a [TranscriptLine],
    key: &[u8],
) -> Result<Vec<&'a [u8]>, Memory>
    ensures { IfOk result (λ list. map (λ writes. writes.now) list.items ≡ filter_map (writes_under key.now) lines.now) }
{
    let mut list = Vec::new(alloc);
    for line in lines {
        let Some(writes) = line.writes_under(key) else {
            continue;
        };
        list.push(writes)?;
    }
    Ok(list)
}

/// Whether each of these texts is this one.
fn all_are(texts: &[&[u8]], text: &[u8]) -> bool
    ensures { result ≡ list_all (λ other. bytes_eq other.now text.now) texts.now }
{
    texts.iter().all(|other| *other == text)
}

/// Whether these texts are the same.
#[tactic(auto, using(crate::proofs::of_loads::KeptLoads::kept))]
fn are_same(texts: &[&[u8]]) -> bool
    ensures { result ≡ are_same (map (λ text. text.now) texts.now) }
{
    match texts.split_first() {
        None => true,
        Some((first, rest)) => all_are(rest, first),
    }
}

/// Whether the last five reads of this key show the same writes.
#[tactic(auto, using(crate::proofs::of_loads::KeptLoads::kept))]
fn agree_on(alloc: Global, lines: &[TranscriptLine], key: &[u8]) -> Result<bool, Memory>
    ensures { IfOk result (λ yes. yes ≡ agree_on key.now lines.now) }
{
    let all = all_writes(alloc, lines, key)?;
    let all = all.as_slice();
    Ok(are_same(&all[all.len().saturating_sub(5)..]))
}

/// The same of the key that is read, if one is.
fn agrees(alloc: Global, lines: &[TranscriptLine], line: &TranscriptLine) -> Result<bool, Memory>
    ensures { IfOk result (λ yes. yes ≡ agrees lines.now line.now) }
{
    match line {
        TranscriptLine::Read { key, .. } => agree_on(alloc, lines, key.as_slice()),
        _ => Ok(true),
    }
}

/// The same of each key that is read.
pub fn agree(alloc: Global, lines: &[TranscriptLine]) -> Result<bool, Memory>
    ensures { IfOk result (λ yes. yes ≡ agree lines.now) }
{
    for line in lines {
        if !agrees(alloc, lines, line)? {
            return Ok(false);
        }
    }
    Ok(true)
}
