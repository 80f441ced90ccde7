//! One call on a handle.
ghost use Rattle.std.specs.Prelude.{◌≡◌};
ghost use Rattle.depot_c.specs.Calls.{IsCopied, KeepsAnswer, Lends, Performs, ServesCall, kept_bytes};

use crate::ask::Ask;
use crate::handle::{Handle, Viewed, fresh};
use crate::outcome::CallOutcome;
use crate::refused::Refused;
use depot_base::Bytes;

/// Fills a piece with bytes from an offset on, as far as there are any, and says how many.
fn copy_out(bytes: &[u8], at: u64, into: &mut [u8]) -> u64
    ensures { IsCopied bytes.now at into.old result into.new }
{
    if at > bytes.len() as u64 {
        return 0;
    }
    let rest = &bytes[at as usize..];
    let count = rest.len().min(into.len());
    into[..count].copy_from_slice(&rest[..count]);
    count as u64
}

/// Keeps what a call answered, and gives its status.
fn settle(h: &mut Handle, told: Result<Bytes, Refused>) -> u64
    ensures view { ⟦<Handle as Viewed>⟧.view_of h.new ≡ ⟦<Handle as Viewed>⟧.view_of h.old }
    ensures lent { (kept_bytes h.new).records ≡ (kept_bytes h.old).records }
    ensures settles { KeepsAnswer told result (kept_bytes h.new).answer }
{
    match told {
        Ok(answer) => {
            h.answer = answer;
            CallOutcome::Done.number()
        }
        Err(refused) => {
            let status = refused.outcome().number();
            h.answer = refused.words(h.alloc);
            status
        }
    }
}

/// Does what is asked of a handle, and keeps the answer.
fn act(h: &mut Handle, ask: Ask, number: u64, input: &[u8]) -> u64
    ensures { Performs ask number input.now (⟦<Handle as Viewed>⟧.view_of h.old) (kept_bytes h.old) result (⟦<Handle as Viewed>⟧.view_of h.new) (kept_bytes h.new) }
{
    let told = h.does(ask, number, input);
    settle(h, told)
}

/// Lends the records from a place on, in place of those that were lent before. The answer stays.
fn lend(h: &mut Handle, place: u64) -> u64
    ensures { Lends place (⟦<Handle as Viewed>⟧.view_of h.old) (kept_bytes h.old) result (⟦<Handle as Viewed>⟧.view_of h.new) (kept_bytes h.new) }
{
    match h.records_from(place) {
        Ok(run) => {
            h.lent = run;
            CallOutcome::Done.number()
        }
        Err(refused) => {
            h.lent = Bytes::new(h.alloc);
            refused.outcome().number()
        }
    }
}

/// One call: what the number of the operation asks. Those that read the answer or the records that are lent give what they read, and
/// each other one gives the number of its outcome.
pub fn serve(h: &mut Handle, op: u32, number: u64, input: &[u8], output: &mut [u8]) -> u64
    ensures { ServesCall op number input.now (⟦<Handle as Viewed>⟧.view_of h.old) (kept_bytes h.old) output.old (⟦<Handle as Viewed>⟧.view_of h.new) (kept_bytes h.new) result output.new }
{
    match Ask::of(op) {
        None => settle(h, Err(Refused::Input)),
        Some(Ask::Length) => h.answer.as_slice().len() as u64,
        Some(Ask::Copy) => copy_out(h.answer.as_slice(), number, output),
        Some(Ask::RecordsLength) => h.lent.as_slice().len() as u64,
        Some(Ask::RecordsCopy) => copy_out(h.lent.as_slice(), number, output),
        Some(Ask::Clear) => {
            *h = fresh(h.alloc);
            CallOutcome::Done.number()
        }
        Some(Ask::Records) => lend(h, number),
        Some(ask) => act(h, ask, number, input),
    }
}
