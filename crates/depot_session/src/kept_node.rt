//! A node in memory whose journal is kept in a file, group by group.
ghost use Rattle.std.specs.Prelude.{◌≡◌, ◌≤◌, ◌⊎◌, [], map, length, true, false, IfOk, OnOk, OnErr, IsErr, IsErrOf};
ghost use Rattle.depot_base.specs.Faults.{HasCause};
ghost use Rattle.depot_base.specs.File.{blocks};
ghost use Rattle.depot_model.specs.journals.JournalCalls.{Lasts};
ghost use Rattle.depot_model.specs.journals.Replicas.{journal_of};
ghost use Rattle.depot_model.specs.texts.Records.{text_of_record};
ghost use Rattle.depot_session.specs.GroupCalls.{AppendsGroups};
ghost use Rattle.depot_session.specs.Keeping.{IsFileKept, kept_state, unkept_records};

use crate::server_ending::ServeEnding;
use depot_base::{Bytes, Memory};
use depot_journal::{append_group, put_in_group};
use depot_outside::{Disk, OutError};
use depot_queries::LocalNode;
use std::alloc::Global;

/// A node in memory, and the disk on which its journal is kept. Contracts see it as a node whose records are those in
/// the file: what the node's journal grew by counts once it was appended there (`keep`).
#[derive(Drop)]
pub struct KeptNode<N, D> {
    pub node: N,
    pub disk: D,
    /// The offset of the closed gate in the file.
    pub gate: u64,
    /// How many of the node's records are in the file.
    pub kept: u32,
    /// Whether the disk failed in an append.
    pub stopped: bool,
}

impl<N: LocalNode, D: Disk> KeptNode<N, D> {
    /// The bytes of the records that aren't in the file yet.
    fn unkept(&self, alloc: Global) -> Result<Bytes, Memory>
        requires { self.now.kept ≤ length (N.records self.now.node) }
        ensures { IfOk result (λ bytes. bytes ≡ blocks (map text_of_record (unkept_records N.NodeState self.now))) }
    {
        let kept = self.kept;
        let mut bytes = Bytes::new(alloc);
        for place in kept..self.node.record_count() {
            put_in_group(&mut bytes, self.node.record_text(place))?;
        }
        Ok(bytes)
    }

    /// Appends the records that aren't in the file to it, as one group. Without such records it does nothing.
    ///
    /// On `Memory` nothing was appended. On `Disk` the file may have all of them or none, and the node is stopped.
    pub fn keep(&mut self, alloc: Global) -> Result<(), ServeEnding>
        requires { IsFileKept N.NodeState D.Disk self.old }
        ensures node { self.new.node ≡ self.old.node }
        ensures kept { OnOk result (IsFileKept N.NodeState D.Disk self.new) }
        ensures all { OnOk result (self.new.kept ≡ length (N.records self.new.node)) }
        ensures none { OnErr result (self.new.kept ≡ self.old.kept) }
        ensures only { OnErr result (IsErrOf result ServeEnding.Memory ⊎ IsErrOf result ServeEnding.Disk) }
        ensures lasts { Lasts (journal_of (kept_state N.NodeState D.Disk)) self.old self.new (unkept_records N.NodeState self.old) }
        ensures idle { IsErrOf result ServeEnding.Memory → Lasts (journal_of (kept_state N.NodeState D.Disk)) self.old self.new [] }
        ensures calls { AppendsGroups (kept_state N.NodeState D.Disk) self.old self.new (IsErrOf result ServeEnding.Disk) }
        ensures handle { D.handle self.new.disk ≡ D.handle self.old.disk }
        ensures cause { HasCause (D.faults self.old.disk) (D.faults self.new.disk) (IsErrOf result ServeEnding.Disk) }
    {
        let count = self.node.record_count();
        if count == self.kept {
            return Ok(());
        }
        let Ok(group) = self.unkept(alloc) else {
            return Err(ServeEnding::Memory);
        };
        let long = group.as_slice().len() as u64;
        match append_group(&mut self.disk, self.gate, group) {
            Ok(()) => {
                self.gate += long;
                self.kept = count;
                Ok(())
            }
            Err(OutError::Memory) => Err(ServeEnding::Memory),
            Err(OutError::Failed) => {
                self.stopped = true;
                Err(ServeEnding::Disk)
            }
        }
    }
}
