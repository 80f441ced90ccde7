//! Sums over what lines say.
ghost use Rattle.std.specs.Prelude.{◌≡◌, count_by, sum, IfOk};
ghost use Rattle.std.specs.List.{filter_map};
ghost use Rattle.depot_world.specs.Summaries.{convicted_in, convicted_last, is_put_line, total};

use crate::transcript_lines::{Count, TranscriptLine};
use depot_base::Memory;
use std::alloc::Global;

/// How many puts were done.
pub fn puts(lines: &[TranscriptLine]) -> usize
    ensures { result ≡ count_by is_put_line lines.now }
{
    lines.iter().filter(|line| line.is_put()).count()
}

/// The sum of a number over all reports. It can't overflow: each is below 2^64, and so is their count.
pub fn total(lines: &[TranscriptLine], which: Count) -> u128
    ensures { result ≡ total which lines.now }
{
    let mut total: u128 = 0;
    for line in lines {
        total += u128::from(line.counted(which));
    }
    total
}

/// How many nodes each hello names as convicted.
fn all_convicted(alloc: Global, lines: &[TranscriptLine]) -> Result<Vec<u64>, Memory>
    ensures { IfOk result (λ list. list.items ≡ filter_map convicted_in lines.now) }
{
    Ok(
        lines
            .iter()
            .filter_map(|line| line.convicted())
            .collect(alloc)?,
    )
}

/// The sum of some numbers. It can't overflow: each is below 2^64, and so is their count.
#[tactic(auto, using(crate::proofs::of_loads::Sums::sum_more))]
fn sum_of(numbers: &[u64]) -> u128
    ensures { result ≡ sum numbers.now }
{
    let mut sum: u128 = 0;
    for number in numbers {
        sum += u128::from(*number);
    }
    sum
}

/// How many nodes the last five hellos name as convicted, all together.
pub fn convicted_last(alloc: Global, lines: &[TranscriptLine]) -> Result<u128, Memory>
    ensures { IfOk result (λ n. n ≡ convicted_last lines.now) }
{
    let all = all_convicted(alloc, lines)?;
    let all = all.as_slice();
    Ok(sum_of(&all[all.len().saturating_sub(5)..]))
}
