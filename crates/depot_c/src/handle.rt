//! All that a handle keeps, and what it does when it is asked.
ghost use Rattle.std.specs.Prelude.{◌≡◌, option_map, is_none, Some, None};
ghost use Rattle.depot_c.specs.Handles.{Does, HandleView, KeepsKey, KeepsRoster, LendsRecords, MessagesHandle, NodeEnds, SignerGiven, Starts};
ghost use Rattle.depot_c.specs.Calls.{IsNewHandle, kept_bytes};

use crate::ask::Ask;
use crate::lent_records::records_from;
use crate::message_calls::message;
use crate::node_view::{HasNodeView, Over};
use crate::refused::Refused;
use crate::shared_signer::SharedSigner;
use crate::starting::{node_of, start};
use depot_base::limits::{GREATEST_HEIGHT, LEAST_HEIGHT};
use depot_base::{Bytes, Hash32};
use depot_model::Signer;
use depot_sign::Roster;
use depot_winter::WinterSigner;
use std::alloc::Global;

/// All that a handle keeps: at most one node, the last answer, and the records that were lent last.
#[derive(Drop)]
pub struct Handle {
    pub(crate) alloc: Global,
    roster: Option<Roster>,
    signer: Option<SharedSigner>,
    node: Option<Over>,
    pub(crate) answer: Bytes,
    pub(crate) lent: Bytes,
}

/// What contracts see of a handle.
pub trait Viewed {
    /// What it keeps, but for the bytes that its caller reads.
    ghost view_of: { Self → HandleView };
}

impl Viewed for Handle {
    ghost view_of = { λ h. record {
      listed = h.roster;
      kept = option_map (λ s. record { key = ⟦<SharedSigner as Signer>⟧.key_of s; sign = ⟦<SharedSigner as Signer>⟧.signature_of s }) h.signer;
      node_view = option_map ⟦<Over as HasNodeView>⟧.node_view h.node;
    } };
}

/// A handle of nothing. It takes no memory.
pub fn fresh(alloc: Global) -> Handle
    ensures { IsNewHandle (⟦<Handle as Viewed>⟧.view_of result) (kept_bytes result) }
{
    Handle {
        alloc,
        roster: None,
        signer: None,
        node: None,
        answer: Bytes::new(alloc),
        lent: Bytes::new(alloc),
    }
}

/// The signer of a seed and a height.
fn signer_of(alloc: Global, seed: &[u8], height: u64) -> Result<SharedSigner, Refused>
    ensures { SignerGiven seed.now height (⟦<SharedSigner as Signer>⟧.key_of) (⟦<SharedSigner as Signer>⟧.signature_of) result }
{
    let Some(seed) = Hash32::from_slice(seed) else {
        return Err(Refused::Input);
    };
    if height < u64::from(LEAST_HEIGHT) || height > u64::from(GREATEST_HEIGHT) {
        return Err(Refused::Input);
    }
    let Ok(signer) = WinterSigner::from_seed(alloc, &seed, height as u8) else {
        return Err(Refused::Memory);
    };
    match SharedSigner::new(alloc, signer) {
        Ok(signer) => Ok(signer),
        Err(_) => Err(Refused::Memory),
    }
}

impl Handle {
    /// Keeps the roster of a text.
    fn keep_roster(&mut self, text: &[u8]) -> Result<Bytes, Refused>
        ensures keeps { KeepsRoster text.now (⟦<Handle as Viewed>⟧.view_of self.old) result (⟦<Handle as Viewed>⟧.view_of self.new) }
        ensures lent { (kept_bytes self.new).records ≡ (kept_bytes self.old).records }
    {
        match Roster::parse(self.alloc, text) {
            Ok(roster) => {
                self.roster = Some(roster);
                Ok(Bytes::new(self.alloc))
            }
            Err(error) => Err(Refused::Roster(error)),
        }
    }

    /// Makes the key of a seed and a height, and keeps its signer.
    fn keep_key(&mut self, seed: &[u8], height: u64) -> Result<Bytes, Refused>
        ensures keeps { KeepsKey height seed.now (⟦<Handle as Viewed>⟧.view_of self.old) result (⟦<Handle as Viewed>⟧.view_of self.new) }
        ensures lent { (kept_bytes self.new).records ≡ (kept_bytes self.old).records }
    {
        self.signer = Some(signer_of(self.alloc, seed, height)?);
        Ok(Bytes::new(self.alloc))
    }

    /// Whether it has no node.
    fn is_free(&self) -> bool
        ensures { result ≡ is_none (⟦<Handle as Viewed>⟧.view_of self.now).node_view }
    {
        self.node.is_none()
    }

    /// Starts the node of a number from the bytes of a journal's file, which are none at the first start.
    fn start(&mut self, number: u64, file: &[u8]) -> Result<Bytes, Refused>
        ensures starts { Starts number file.now (⟦<Handle as Viewed>⟧.view_of self.old) result (⟦<Handle as Viewed>⟧.view_of self.new) }
        ensures lent { (kept_bytes self.new).records ≡ (kept_bytes self.old).records }
    {
        let me = node_of(number)?;
        if !self.is_free() {
            return Err(Refused::Order);
        }
        let (Some(roster), Some(signer)) = (&self.roster, &self.signer) else {
            return Err(Refused::Order);
        };
        let node = start(self.alloc, file, roster, signer, me)?;
        self.keep_node(node);
        Ok(Bytes::new(self.alloc))
    }

    /// Keeps a node.
    fn keep_node(&mut self, node: Over)
        ensures keeps { ⟦<Handle as Viewed>⟧.view_of self.new ≡ record (⟦<Handle as Viewed>⟧.view_of self.old) { node_view = Some (⟦<Over as HasNodeView>⟧.node_view node) } }
        ensures lent { (kept_bytes self.new).records ≡ (kept_bytes self.old).records }
    {
        self.node = Some(node);
    }

    /// Ends the node.
    fn end(&mut self) -> Result<Bytes, Refused>
        ensures ends { NodeEnds (⟦<Handle as Viewed>⟧.view_of self.old) result (⟦<Handle as Viewed>⟧.view_of self.new) }
        ensures lent { (kept_bytes self.new).records ≡ (kept_bytes self.old).records }
    {
        if self.is_free() {
            return Err(Refused::Order);
        }
        self.node = None;
        Ok(Bytes::new(self.alloc))
    }

    /// Has the node do or tell what the body of a message asks.
    fn message(&mut self, body: &[u8]) -> Result<Bytes, Refused>
        ensures messages { MessagesHandle body.now (⟦<Handle as Viewed>⟧.view_of self.old) result (⟦<Handle as Viewed>⟧.view_of self.new) }
        ensures lent { (kept_bytes self.new).records ≡ (kept_bytes self.old).records }
    {
        match &mut self.node {
            Some(node) => message(self.alloc, node, body),
            None => Err(Refused::Order),
        }
    }

    /// The records of the node from a place on, as a caller appends them to the journal's file.
    pub fn records_from(&self, place: u64) -> Result<Bytes, Refused>
        ensures { LendsRecords place (⟦<Handle as Viewed>⟧.view_of self.now).node_view result }
    {
        let Some(node) = &self.node else {
            return Err(Refused::Order);
        };
        match records_from(self.alloc, node, place) {
            Ok(run) => Ok(run),
            Err(_) => Err(Refused::Memory),
        }
    }

    /// Does what is asked.
    pub fn does(&mut self, ask: Ask, number: u64, input: &[u8]) -> Result<Bytes, Refused>
        ensures does { Does ask number input.now (⟦<Handle as Viewed>⟧.view_of self.old) result (⟦<Handle as Viewed>⟧.view_of self.new) }
        ensures lent { (kept_bytes self.new).records ≡ (kept_bytes self.old).records }
    {
        match ask {
            Ask::Roster => self.keep_roster(input),
            Ask::Key => self.keep_key(input, number),
            Ask::Start => self.start(number, input),
            Ask::End => self.end(),
            Ask::Message => self.message(input),
            Ask::Length
            | Ask::Copy
            | Ask::RecordsLength
            | Ask::RecordsCopy
            | Ask::Clear
            | Ask::Records => Err(Refused::Order),
        }
    }
}
