//! Proofs of misbehaviour, judged for a caller in C.
ghost use Rattle.std.specs.Prelude.{◌≡◌, ◌≢◌};
ghost use Rattle.depot_model.specs.texts.Texts.{number_of_kind};
ghost use Rattle.depot_c.specs.Judgements.{IsConvicted, IsRosterRefused, IsNotConvicted, IsStatus};

use depot_base::Kind;
use depot_judge::{JudgeError, judge};
use depot_sign::{Roster, RosterError};
use depot_winter::WinterScheme;
use std::alloc::Global;

/// The outcome of a judgement. The status is that with which `depot judge` ends: 0 where the node is convicted in the
/// kind (1 to 4, as in the text of a proof), 2 where there is no roster, 6 where no memory was found, 7 where a point
/// of the proof fails. The node and the kind are 0 but at status 0.
#[repr(C)]
#[derive(Clone, Copy)]
pub struct Judged {
    /// The status.
    pub status: u32,
    /// The node's number.
    pub node: u32,
    /// The kind's number.
    pub kind: u32,
}

/// The number of a kind, as texts of proofs have it.
fn number_of(kind: Kind) -> u32
    ensures { result ≡ number_of_kind kind }
{
    match kind {
        Kind::SameNumber => 1,
        Kind::SamePrev => 2,
        Kind::Backward => 3,
        Kind::NotUpdate => 4,
    }
}

/// An answer that convicts nobody.
fn unconvicted(status: u32) -> Judged
    ensures { result ≡ record { status = status; node = 0; kind = 0 } }
{
    Judged {
        status,
        node: 0,
        kind: 0,
    }
}

/// Judges the text of a proof under the text of a roster, with signatures of Winternitz. It keeps nothing.
#[unsafe(no_mangle)]
pub extern "C" fn depot_c_judge(alloc: Global, roster: &[u8], proof: &[u8]) -> Judged
    ensures convicted { result.status ≡ 0 → IsConvicted roster.now proof.now result.node result.kind }
    ensures no_roster { result.status ≡ 2 → IsRosterRefused roster.now }
    ensures not_convicted { result.status ≡ 7 → IsNotConvicted roster.now proof.now }
    ensures status { IsStatus result.status }
    ensures nobody { result.status ≢ 0 → (result.node ≡ 0) × (result.kind ≡ 0) }
{
    let listed = match Roster::parse(alloc, roster) {
        Ok(listed) => listed,
        Err(RosterError::Memory) => return unconvicted(6),
        Err(_) => return unconvicted(2),
    };
    match judge(alloc, &listed, &WinterScheme, proof) {
        Ok(verdict) => Judged {
            status: 0,
            node: u32::from(verdict.node.number()),
            kind: number_of(verdict.kind),
        },
        Err(JudgeError::Memory) => unconvicted(6),
        Err(_) => unconvicted(7),
    }
}
