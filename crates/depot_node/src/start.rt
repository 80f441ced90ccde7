//! Starts a node from the journal on its disk.
ghost use Rattle.std.specs.Prelude.{◌≡◌, [], List, true, IsTrue, Some, None, IfOk, IfErr, IfSome};
ghost use Rattle.depot_base.specs.declared.record.Record.{Record};
ghost use Rattle.depot_model.specs.journals.Lawful.{IsLawful};
ghost use Rattle.depot_model.specs.texts.Roster.{has_node, key_of};
ghost use Rattle.depot_accept.specs.StateView.{IsStateOf, setting};
ghost use Rattle.depot_node.specs.Holdings.{node_setting, IsWhole};
ghost use Rattle.depot_node.specs.Starting.{IsDiskFault, IsDiskThen, IsHandedBack, IsKeyFault, IsNodeAt, IsNotStarted, IsStartedOn, disk_left, of_journal, placed, started};

use crate::node::{Node, OnDisk};
use crate::start_error::StartError;
use crate::start_reading::fill;
use crate::store::Store;
use depot_accept::State;
use depot_base::NodeId;
use depot_journal::{Journal, JournalError};
use depot_model::{NodeState, Scheme, Signer};
use depot_outside::{Back, Disk};
use depot_sign::Roster;
use std::alloc::Global;

impl<D: Disk, S: Scheme, G: Signer<Of = S>> Node<D, S, G> {
    /// Starts the node `me` of a roster from the journal on a disk, checking record by record, each as if it came now.
    /// A disk without records gets the birth record of the node.
    ///
    /// `UnknownMe` and `OtherKey` are found before the disk is accessed, then `Damaged`, `OtherNode`, `OtherRoster` and
    /// `NotLawful`, each exactly where it is so; the file then reads as before. The disk is given back. A birth may be
    /// on it where the disk failed, and on no other error.
    pub fn start(
        alloc: Global,
        disk: D,
        roster: Roster,
        scheme: S,
        signer: G,
        me: NodeId,
    ) -> Result<Node<D, S, G>, Back<StartError, D>>
        ensures node { IfOk result (IsNodeAt ⟦<Node<D, S, G> as NodeState>⟧ (placed S.verifies me roster) (G.key_of signer) (G.signature_of signer)) }
        ensures started { IfOk result (λ n. IsStartedOn D.Disk (placed S.verifies me roster) disk (⟦<Node<D, S, G> as OnDisk<D>>⟧.disk n) (⟦<Node<D, S, G> as NodeState>⟧.records n)) }
        ensures refused { IfErr result (λ b. IsNotStarted (placed S.verifies me roster) (G.key_of signer) (IsTrue (D.tells disk)) (D.seen disk) b.error) }
        ensures untouched { IfErr result (λ b. IsKeyFault roster me (G.key_of signer) b.error → b.disk ≡ disk) }
        ensures back { IfErr result (IsHandedBack D.Disk (placed S.verifies me roster) disk) }
        // The disk that is given back, in the node or without it.
        ensures disk { IsDiskThen D.Disk (placed S.verifies me roster) disk (disk_left result ⟦<Node<D, S, G> as OnDisk<D>>⟧.disk) }
    {
        if let Some(error) = key_fault(&roster, &signer, me) {
            return Err(Back { error, disk });
        }
        let Ok(state) = State::new(alloc, me, roster, scheme) else {
            return Err(Back {
                error: StartError::Memory,
                disk,
            });
        };
        match open(alloc, disk, state) {
            Ok(store) => Ok(Node {
                alloc,
                store,
                signer,
            }),
            Err(back) => Err(back),
        }
    }
}

/// Opens the store of the journal on a disk: reads every record, or appends the birth record of the node.
fn open<D: Disk, S: Scheme>(
    alloc: Global,
    disk: D,
    state: State<S>,
) -> Result<Store<D, S>, Back<StartError, D>>
    requires empty { IsStateOf [] state }
    requires listed { has_node state.listed state.me ≡ true }
    ensures stands { IfOk result (λ s. node_setting S.verifies s ≡ setting S.verifies state) }
    ensures whole { IfOk result IsWhole }
    ensures lawful { IfOk result (λ s. (J : List Record) × (IsLawful (setting S.verifies state) J × (s.records ≡ started (setting S.verifies state) J))) }
    ensures started { IfOk result (λ s. IsStartedOn D.Disk (setting S.verifies state) disk s.disk s.records) }
    ensures refused { IfErr result (λ b. IsDiskFault (setting S.verifies state) (IsTrue (D.tells disk)) (D.seen disk) b.error) }
    ensures back { IfErr result (IsHandedBack D.Disk (setting S.verifies state) disk) }
    ensures disk { IsDiskThen D.Disk (setting S.verifies state) disk (disk_left result (λ s. s.disk)) }
{
    let journal = match Journal::start(alloc, disk) {
        Ok(journal) => journal,
        Err(Back { error, disk }) => {
            drop(state);
            return Err(Back {
                error: error_of(error),
                disk,
            });
        }
    };
    let mut store = Store::new(alloc, state, journal);
    match fill(alloc, &mut store) {
        Ok(()) => Ok(store),
        Err(error) => Err(Back {
            error,
            disk: store.into_disk(),
        }),
    }
}

/// Why a node of a roster can't be started with a signer: the roster doesn't have it, or has another key for it.
fn key_fault<G: Signer>(roster: &Roster, signer: &G, me: NodeId) -> Option<StartError>
    ensures none { result ≡ None → key_of roster.now me ≡ Some (G.key_of signer.now) }
    ensures some { IfSome result (IsKeyFault roster.now me (G.key_of signer.now)) }
{
    let Some(key) = roster.key_of(me) else {
        return Some(StartError::UnknownMe);
    };
    let own = signer.key();
    if key == own {
        return None;
    }
    Some(StartError::OtherKey {
        roster: key,
        signer: own,
    })
}

/// Why a journal isn't started, as a node's error.
fn error_of(error: JournalError) -> StartError
    ensures { result ≡ of_journal error }
{
    match error {
        JournalError::Memory => StartError::Memory,
        JournalError::Disk => StartError::Disk,
        JournalError::Damaged(at) => StartError::Damaged(at),
    }
}
