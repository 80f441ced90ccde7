//! A schedule while its lines are read.
ghost use Rattle.std.specs.Prelude.{◌≡◌, ℕ, List, ◌≤◌, IfOk, None, Some};
ghost use Rattle.std.specs.Option.{MatchOption};
ghost use Rattle.depot_base.specs.declared.limits.TheConstants.{GREATEST_HEIGHT};
ghost use Rattle.depot_schedule.specs.EventWords.{is_declared, is_correct, is_faulty, label_made, named_by};
ghost use Rattle.depot_schedule_parser.specs.LabelTable.{AddsLabel};
ghost use Rattle.depot_schedule.specs.Schedules.{blank_schedule, has_correct, has_events, count_correct, may_join, with_member, with_event};

use crate::labels::NamedLabels;
use depot_base::limits::{MOST_CORRECT, MOST_NODES};
use depot_base::{Memory, NodeId, Sequence};
use depot_lines::Label;
use depot_schedule::{Event, Made, Member, Schedule};
use std::alloc::Global;
use std::marker::Model;

/// The schedule so far, and what its labels name. Contracts see it as that schedule.
#[derive(Drop)]
pub struct Draft {
    schedule: Schedule,
    labels: NamedLabels,
}

impl Model for Draft {
    ghost use Rattle.depot_base.specs.declared.limits.TheConstants.{GREATEST_HEIGHT};
    ghost use Rattle.std.specs.Prelude.{◌≡◌, ℕ, List, ◌≤◌};
    ghost use Rattle.depot_schedule.specs.declared.schedule.Schedule.{Schedule};
    ghost use Rattle.depot_schedule.specs.EventWords.{named_by};
    ghost use Rattle.depot_schedule_parser.specs.LabelTable.{named_in_table};

    ghost Value = { Schedule };

    ghost view = { λ d. d.schedule };

    ghost invariant = { λ d. (d.schedule.height ≤ GREATEST_HEIGHT) × ((label : List ℕ) → named_in_table label d.labels.map.entries ≡ named_by d.schedule.events label) };
}

/// Whether a node is declared.
fn is_declared(members: &[Member], node: NodeId) -> bool
    ensures { result ≡ is_declared members.now node }
{
    members.iter().any(|m| m.node == node)
}

/// Whether a node is declared as correct.
fn is_correct(members: &[Member], node: NodeId) -> bool
    ensures { result ≡ is_correct members.now node }
{
    members.iter().any(|m| m.node == node && m.correct)
}

/// Whether a node is declared as faulty.
fn is_faulty(members: &[Member], node: NodeId) -> bool
    ensures { result ≡ is_faulty members.now node }
{
    members.iter().any(|m| m.node == node && !m.correct)
}

/// Whether a correct node is declared.
fn has_correct(members: &[Member]) -> bool
    ensures { result ≡ has_correct members.now }
{
    members.iter().any(|m| m.correct)
}

/// How many correct nodes are declared.
fn count_correct(members: &[Member]) -> usize
    ensures { result ≡ count_correct members.now }
{
    members.iter().filter(|m| m.correct).count()
}

/// The label that an event makes, and what it makes it name.
fn label_made(event: &Event) -> Option<(&Label, Made)>
    ensures { MatchOption result (label_made event.now ≡ None) (λ made. label_made event.now ≡ Some (made.0.now, made.1)) }
{
    match event {
        Event::Put { .. } => None,
        Event::Puts { .. } => None,
        Event::Get { .. } => None,
        Event::Hello { label, .. } => Some((label, Made::Bytes)),
        Event::Bundle { label, .. } => Some((label, Made::Bytes)),
        Event::Give { .. } => None,
        Event::Restart { .. } => None,
        Event::Update { label, .. } => Some((label, Made::Update)),
        Event::Updates { label, .. } => Some((label, Made::Update)),
        Event::Voucher { label, .. } => Some((label, Made::Voucher)),
        Event::Proof { label, .. } => Some((label, Made::Bytes)),
        Event::Hollow { label, .. } => Some((label, Made::Bytes)),
        Event::Judge { .. } => None,
        Event::Raw { label, .. } => Some((label, Made::Plain)),
        Event::Cut { label, .. } => Some((label, Made::Plain)),
        Event::Flip { label, .. } => Some((label, Made::Plain)),
        Event::Join { label, .. } => Some((label, Made::Plain)),
        Event::Stop { .. } => None,
        Event::Receipt { .. } => None,
        Event::Settled { .. } => None,
        Event::Audit => None,
        Event::Checkpoint { label, .. } => Some((label, Made::Bytes)),
        Event::Sign { .. } => None,
        Event::Trim { name, .. } => Some((name, Made::Reader)),
        Event::Tgive { .. } => None,
        Event::Tget { .. } => None,
    }
}

/// The labels with that of an event, if it makes one.
fn with_label_of(labels: NamedLabels, alloc: Global, event: &Event) -> Result<NamedLabels, Memory>
    ensures { IfOk result (λ l. AddsLabel labels.map.entries (label_made event.now) l.map.entries) }
{
    match label_made(event) {
        None => Ok(labels),
        Some((label, made)) => labels.with(alloc, label.bytes(), made),
    }
}

impl Draft {
    /// The schedule before its first member. It takes no memory.
    pub fn new(alloc: Global, winter: bool, height: u8) -> Draft
        requires { height ≤ GREATEST_HEIGHT }
        ensures { result ≡ blank_schedule winter height }
    {
        Draft {
            schedule: Schedule {
                winter,
                height,
                members: Sequence::new(alloc),
                events: Sequence::new(alloc),
            },
            labels: NamedLabels::new(alloc),
        }
    }

    /// The height of each node's tree.
    pub fn height(&self) -> u8
        ensures same { result ≡ self.now.height }
        ensures range { result ≤ GREATEST_HEIGHT }
    {
        self.schedule.height
    }

    /// Whether a node is declared as correct.
    pub fn is_correct(&self, node: NodeId) -> bool
        ensures { result ≡ is_correct self.now.members node }
    {
        is_correct(self.schedule.members.as_slice(), node)
    }

    /// Whether a node is declared as faulty.
    pub fn is_faulty(&self, node: NodeId) -> bool
        ensures { result ≡ is_faulty self.now.members node }
    {
        is_faulty(self.schedule.members.as_slice(), node)
    }

    /// Whether a correct node is declared.
    pub fn has_correct(&self) -> bool
        ensures { result ≡ has_correct self.now.members }
    {
        has_correct(self.schedule.members.as_slice())
    }

    /// Whether there is an event.
    pub fn has_events(&self) -> bool
        ensures { result ≡ has_events self.now }
    {
        0 < self.schedule.events.as_slice().len()
    }

    /// What a label names. `None` exactly when no event made it.
    pub fn named(&self, label: &[u8]) -> Option<Made>
        ensures { result ≡ named_by self.now.events label.now }
    {
        self.labels.get(label)
    }

    /// Whether a member may be added: its number is new, and there don't get too many nodes.
    pub fn may_join(&self, member: Member) -> bool
        ensures { result ≡ may_join self.now member }
    {
        let members = self.schedule.members.as_slice();
        !is_declared(members, member.node)
            && (!member.correct || count_correct(members) < MOST_CORRECT)
            && members.len() < MOST_NODES as usize
    }

    /// The same with one member more.
    pub fn with_member(self, member: Member) -> Result<Draft, Memory>
        ensures { IfOk result (λ d. d ≡ with_member self member) }
    {
        let mut draft = self;
        draft.schedule.members.push(member)?;
        Ok(draft)
    }

    /// The same with one event more.
    pub fn with_event(self, alloc: Global, event: Event) -> Result<Draft, Memory>
        ensures { IfOk result (λ d. d ≡ with_event self event) }
    {
        let read = with_label_of(self.labels, alloc, &event);
        let mut schedule = self.schedule;
        schedule.events.push(event)?;
        let labels = read?;
        Ok(Draft { schedule, labels })
    }

    /// Returns the schedule. The list of its events gives back unused room.
    pub fn into_schedule(self) -> Schedule
        ensures { result ≡ self }
    {
        let mut schedule = self.schedule;
        let mut events = schedule.events.into_vec();
        events.shrink_to_fit();
        schedule.events = Sequence::from_vec(events);
        schedule
    }
}
