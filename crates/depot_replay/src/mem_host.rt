//! A correct node over a disk in memory.
ghost use Rattle.std.specs.Prelude.{◌≡◌, ◌≢◌, ◌↔◌, IsErrOf, [], ℕ, List, false, Some, None, Ok, IfOk, IfErr, IsOk, refl};
ghost use Rattle.depot_answers.specs.AnswerTexts.{text_of_number, spaced};
ghost use Rattle.depot_model.specs.texts.Roster.{key_of};
ghost use Rattle.depot_node.specs.Keyed.{HasKey-prop};
ghost use Rattle.depot_node.specs.Starting.{IsNodeAt, LeavesFile, placed};
ghost use Rattle.depot_node.specs.declared.start_error.StartError.TheVariants as start_error;
ghost use Rattle.depot_outside.specs.Stopping.{state_of};
ghost use Rattle.depot_requests.specs.Effects.{ended};
ghost use Rattle.depot_simulation.specs.Acting.{fresh_view};
ghost use Rattle.depot_replay.specs.Disks.{pending_of};
ghost use Rattle.depot_replay.specs.PrintedRuns.{EndsCall, PrintsReply};
ghost use Rattle.depot_replay.specs.MemHostFacts.{IsKeptOn-prop, is_node-prop, is_roster-prop, same_signs-prop, lawful_there};
ghost use Rattle.depot_replay.specs.MemHosts.{FailsToStart, IsHostedAgain, IsKeptOn, IsStartedIn, SparesLawful, WasCalled, WasStopped};

use crate::mem_host_reader::{MemHostReader, trimming};
use depot_base::{Bytes, Hash32, Items, Key, Memory, NodeId, Update};
use depot_model::{NodeState, Past, Replica, Scheme, Signer};
use depot_node::{Node, StartError};
use depot_outside::{Back, MemDisk};
use depot_queries::LocalNode;
use depot_requests::{Halt, Printed, Reply, Request, print};
use depot_scenario::{Numbered, is_by};
use depot_service::{counted_line, make_reader, node_trace, read_traced, serve};
use depot_sign::Roster;
use depot_simulation::{Actor, EventOutcome, StartsFresh, Trimming};
use depot_traces::{ReadTrace, Trace};
use std::alloc::Global;

/// How many disk calls start a node from a journal that isn't empty.
const START_CALLS: u32 = 3;

/// What a node is started with, the first time and again.
#[derive(Drop)]
struct StartConfig<S: Scheme + Copy, G: Signer<Of = S> + Copy> {
    alloc: Global,
    me: NodeId,
    roster: Roster,
    scheme: S,
    signer: G,
    ghost keyed: { key_of roster me ≡ Some (G.key_of signer) } by { HasKey-prop roster me (G.key_of signer) },
}

/// A correct node over a disk in memory. Between two events it isn't stopped, and its disk is at rest and has its
/// journal.
#[derive(Drop)]
pub struct MemHost<S: Scheme + Copy, G: Signer<Of = S> + Copy> {
    node: Node<MemDisk, S, G>,
    start_config: StartConfig<S, G>,
    ghost runs: { node.store.stopped ≡ false },
    ghost is_me: { node.store.me ≡ start_config.me } by { is_node-prop node.store.me start_config.me },
    ghost is_listed: { node.store.listed ≡ start_config.roster } by { is_roster-prop node.store.listed start_config.roster },
    ghost signs: { (seq : ℕ) (body : List ℕ) → G.signature_of node.signer seq body ≡ G.signature_of start_config.signer seq body } by { same_signs-prop (G.signature_of node.signer) (G.signature_of start_config.signer) },
    ghost kept: { IsKeptOn (state_of node.store.disk) node.store.records } by { IsKeptOn-prop (state_of node.store.disk) node.store.records },
}

impl<S: Scheme + Copy, G: Signer<Of = S> + Copy> StartConfig<S, G> {
    /// Starts the node from a disk.
    fn start(&self, disk: MemDisk) -> Result<Node<MemDisk, S, G>, Back<StartError, MemDisk>>
        ensures node { IfOk result (IsNodeAt ⟦<Node<MemDisk, S, G> as NodeState>⟧ (placed S.verifies self.now.me self.now.roster) (G.key_of self.now.signer) (G.signature_of self.now.signer)) }
        ensures started { IfOk result (λ n. IsStartedIn (placed S.verifies self.now.me self.now.roster) (state_of disk) (state_of n.store.disk) (⟦<Node<MemDisk, S, G> as NodeState>⟧.records n)) }
        ensures failing { IfErr result (λ b. b.error ≡ start_error.Disk → FailsToStart (placed S.verifies self.now.me self.now.roster) (state_of disk) (state_of b.disk)) }
        ensures spares { IfErr result (λ b. SparesLawful (placed S.verifies self.now.me self.now.roster) (state_of disk) b.error) }
    {
        let Ok(roster) = self.roster.copy() else {
            return Err(Back {
                error: StartError::Memory,
                disk,
            });
        };
        Node::start(self.alloc, disk, roster, self.scheme, self.signer, self.me)
    }

    /// Hosts the node that was stopped: it is started again from its disk.
    fn stopped(self, disk: MemDisk) -> Result<EventOutcome<MemHost<S, G>>, Memory>
        requires { WasStopped (placed S.verifies self.me self.roster) (state_of disk) }
        ensures { IfOk result (λ t. IsHostedAgain (placed S.verifies self.me self.roster) (G.signature_of self.signer) (state_of disk) (⟦<MemHost<S, G> as Actor>⟧.view t.actor) t.lines t.bytes) }
    {
        match self.start(disk) {
            Ok(node) => {
                let printed = counted_printed(self.alloc, "stopped records", node.record_count());
                event_outcome(
                    MemHost {
                        node,
                        start_config: self,
                    },
                    printed,
                )
            }
            Err(back) => Err(wanting(back)),
        }
    }

    /// Hosts a node whose start was refused, by a stop or for want of memory. After a stop it is started again.
    fn refused(self, back: Back<StartError, MemDisk>) -> Result<EventOutcome<MemHost<S, G>>, Memory>
        requires spared { LeavesFile back.error → ⊥ }
        requires stopped { back.error ≡ start_error.Disk → WasStopped (placed S.verifies self.me self.roster) (state_of back.disk) }
        ensures stopped { IfOk result (λ _. back.error ≡ start_error.Disk) }
        ensures again { IfOk result (λ t. IsHostedAgain (placed S.verifies self.me self.roster) (G.signature_of self.signer) (state_of back.disk) (⟦<MemHost<S, G> as Actor>⟧.view t.actor) t.lines t.bytes) }
    {
        match back.error {
            StartError::Disk => self.stopped(back.disk),
            StartError::Memory => Err(Memory),
            _ => unreachable!(),
        }
    }

    /// Hosts a node after a call, with what is printed of the call. If a stop fell into the call, nothing is printed of
    /// it, and the node is started again. If no memory is found for what is printed, the node is gone.
    fn hosted(
        self,
        node: Node<MemDisk, S, G>,
        printed: Result<Option<Printed>, Memory>,
    ) -> Result<EventOutcome<MemHost<S, G>>, Memory>
        requires stands { ⟦<Node<MemDisk, S, G> as NodeState>⟧.stands node ≡ placed S.verifies self.me self.roster }
        requires signs { G.signature_of node.signer ≡ G.signature_of self.signer }
        requires runs { IfOk printed (λ p. p ≢ None → node.store.stopped ≡ false) }
        requires called { IfOk printed (λ p. WasCalled (placed S.verifies self.me self.roster) (state_of node.store.disk) node.store.records (p ≡ None)) }
        ensures printed { IfOk result (λ _. IsOk printed) }
        ensures ends { IfOk result (EndsCall (placed S.verifies self.me self.roster) (G.signature_of self.signer) (state_of node.store.disk) node.store.records printed ⟦<MemHost<S, G> as Actor>⟧.view) }
    {
        match printed {
            Ok(Some(printed)) => Ok(EventOutcome {
                actor: MemHost {
                    node,
                    start_config: self,
                },
                lines: printed.lines,
                bytes: printed.bytes,
            }),
            Ok(None) => self.stopped(node.into_disk()),
            Err(Memory) => {
                drop(node);
                drop(self);
                Err(Memory)
            }
        }
    }
}

/// The want of memory for which a start was refused.
fn wanting(back: Back<StartError, MemDisk>) -> Memory
    requires { back.error ≡ start_error.Memory }
{
    match back.error {
        StartError::Memory => Memory,
        _ => unreachable!(),
    }
}

/// The outcome of a node's event, with what is printed of it. If no memory is found for that, the node is gone.
fn event_outcome<A: Drop>(
    actor: A,
    printed: Result<Printed, Memory>,
) -> Result<EventOutcome<A>, Memory>
    ensures actor { IfOk result (λ t. t.actor ≡ actor) }
    ensures printed { IfOk result (λ t. printed ≡ Ok (record { lines = t.lines; bytes = t.bytes })) }
{
    let Printed { lines, bytes } = printed?;
    Ok(EventOutcome {
        actor,
        lines,
        bytes,
    })
}

/// What is printed of a start: a name and a number of records. It gives a label nothing.
fn counted_printed(alloc: Global, name: &str, count: u32) -> Result<Printed, Memory>
    ensures lines { IfOk result (λ p. p.lines ≡ ended (spaced (text_of_number name.now count))) }
    ensures bytes { IfOk result (λ p. p.bytes ≡ []) }
{
    Ok(Printed {
        lines: counted_line(alloc, name, count)?,
        bytes: Bytes::new(alloc),
    })
}

impl<S: Scheme + Copy, G: Signer<Of = S> + Copy> MemHost<S, G> {
    /// A node that is started on an empty disk.
    pub fn fresh_host(
        alloc: Global,
        roster: &Roster,
        scheme: S,
        signer: G,
        node: NodeId,
    ) -> Result<MemHost<S, G>, Memory>
        requires { key_of roster.now node ≡ Some (G.key_of signer) }
        ensures { IfOk result (λ a. ⟦<MemHost<S, G> as Actor>⟧.view a ≡ fresh_view S.verifies roster.now node (G.signature_of signer)) }
    {
        let start_config = StartConfig {
            alloc,
            me: node,
            roster: roster.copy()?,
            scheme,
            signer,
        };
        let disk = MemDisk::new(Bytes::new(alloc), Items::new(alloc));
        match start_config.start(disk) {
            Ok(node) => Ok(MemHost { node, start_config }),
            Err(back) => Err(wanting(back)),
        }
    }
}

/// What is printed of a node's reply, and nothing where its disk failed.
fn reply_printed(alloc: Global, replied: Result<Reply, Halt>) -> Result<Option<Printed>, Memory>
    requires { IsErrOf replied Halt.Stopped → ⊥ }
    ensures stopped { IfOk result (λ printed. (printed ≡ None) ↔ IsErrOf replied Halt.Disk) }
    ensures settled { IfOk result (λ _. IsErrOf replied Halt.Memory → ⊥) }
    ensures printed { IfOk result (λ printed. PrintsReply replied printed) }
{
    match replied {
        Ok(reply) => Ok(Some(print(alloc, reply)?)),
        Err(Halt::Memory) => Err(Memory),
        Err(Halt::Disk) => Ok(None),
        Err(Halt::Stopped) => unreachable!(),
    }
}

impl<S: Scheme + Copy, G: Signer<Of = S> + Copy> Numbered for MemHost<S, G> {
    ghost number_of = { λ a. a.start_config.me };

    fn number(&self) -> NodeId {
        self.start_config.me
    }
}

impl<S: Scheme + Copy, G: Signer<Of = S> + Copy> Actor for MemHost<S, G> {
    type Reader = MemHostReader<S>;

    ghost view = { λ a. record { here = record { verifies = S.verifies; me = a.start_config.me; listed = a.start_config.roster }; sign = G.signature_of a.start_config.signer; journal = a.node.store.records; pending = pending_of (state_of a.node.store.disk).next } };

    fn update_count(&self) -> u32 {
        self.node.update_count()
    }

    fn update(&self, item: u32) -> &Update {
        self.node.update(item)
    }

    fn id(&self, item: u32) -> &Hash32 {
        self.node.graph().id(item)
    }

    fn own_update(&self, seq: u32) -> Option<&Update> {
        for item in 0..self.node.update_count() {
            let update = self.node.update(item);
            if is_by(update, self.start_config.me, seq) {
                return Some(update);
            }
        }
        None
    }

    fn serve(self, request: Request) -> Result<EventOutcome<Self>, Memory> {
        let MemHost {
            mut node,
            start_config,
        } = self;
        request.carries_bytes();
        let replied = serve(start_config.alloc, &mut node, request);
        let printed = reply_printed(start_config.alloc, replied);
        start_config.hosted(node, printed)
    }

    fn read(&self, key: &Key) -> Result<ReadTrace, Memory> {
        read_traced(self.start_config.alloc, &self.node, key)
    }

    fn trace(&self, reads: &[ReadTrace]) -> Result<Trace, Memory> {
        node_trace(self.start_config.alloc, &self.node, reads)
    }

    fn trim(&self, text: &[u8]) -> Result<Trimming<MemHostReader<S>>, Memory> {
        let StartConfig {
            alloc,
            roster,
            scheme,
            ..
        } = &self.start_config;
        let made = make_reader(*alloc, &self.node, roster, *scheme, text)?;
        Ok(trimming(*alloc, made))
    }

    fn restart(self) -> Result<EventOutcome<Self>, Memory> {
        let MemHost { node, start_config } = self;
        match start_config.start(node.into_disk()) {
            Ok(node) => {
                let printed = counted_printed(start_config.alloc, "records", node.record_count());
                event_outcome(MemHost { node, start_config }, printed)
            }
            Err(back) => start_config.refused(back),
        }
    }

    fn stop_at(self, call: u32, image: u8) -> Result<Self, Memory> {
        let MemHost { node, start_config } = self;
        let mut disk = node.into_disk();
        disk.stop_at(call + START_CALLS, image);
        match start_config.start(disk) {
            Ok(node) => Ok(MemHost { node, start_config }),
            Err(back) => Err(wanting(back)),
        }
    }

    ghost named = { λ a. refl };

    ghost lawful = { λ a. lawful_there S.verifies a.node.store.me a.start_config.me a.node.store.listed a.start_config.roster a.node.store.records a.is_me a.is_listed a.node.kept.lawful };

    ghost to_come = { λ a. a.kept.to_come };
}

impl<S: Scheme + Copy, G: Signer<Of = S> + Copy> StartsFresh<S, G> for MemHost<S, G> {
    fn fresh_host(
        alloc: Global,
        roster: &Roster,
        scheme: S,
        signer: G,
        node: NodeId,
    ) -> Result<MemHost<S, G>, Memory> {
        MemHost::fresh_host(alloc, roster, scheme, signer, node)
    }
}
