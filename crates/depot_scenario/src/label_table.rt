//! What labels name.
ghost use Rattle.std.specs.Prelude.{◌≡◌, ◌++◌, ◌∷◌, List, [], IfOk, OnOk, option_and_then, option_copied};
ghost use Rattle.depot_answers.specs.AnswerTexts.{spaced};
ghost use Rattle.depot_model.specs.journals.Journal.{update_in};
ghost use Rattle.depot_world.specs.Forgetting.{labels_without};
ghost use Rattle.depot_world.specs.Run.{Labelled, first_update};
ghost use Rattle.depot_scenario.specs.Labels.{AreLabels, TakesIn, bytes_in, labels_with, named_in, plain_in, signed_of_label};
ghost use Rattle.depot_world.specs.EventRequests.{label_by};

use crate::drafts::update_of;
use crate::signed_apart::{Apart, put_apart};
use crate::texts::Text;
use depot_base::{Bytes, Memory, Signed, Update};
use depot_lines::Label;
use depot_schedule::Event;
use std::alloc::Global;
use std::collections::BTreeMap;

/// What an event gave a label: its bytes, the signed statement if it made one, and whether they are plain bytes. Most
/// labels have no statement, so that is stored apart.
#[derive(Drop)]
pub struct Given {
    pub bytes: Bytes,
    pub signed: Option<Apart>,
    pub plain: bool,
}

/// What each label names, in an ordered map. Whoever writes a schedule picks the labels, so none is hashed: a look-up
/// takes logarithmic time, whatever they are. What a label was given first stays, until it is forgotten.
#[derive(Drop)]
pub struct Labels {
    alloc: Global,
    pub map: BTreeMap<Vec<u8>, Given>,
}

impl Labels {
    /// No labels. It takes no memory.
    pub fn new(alloc: Global) -> Labels
        ensures { AreLabels result.map.entries [] }
    {
        Labels {
            alloc,
            map: BTreeMap::new(alloc),
        }
    }

    /// What a label names. It takes no memory.
    fn get(&self, label: &[u8]) -> Option<&Given>
        ensures { option_copied result ≡ named_in label.now self.now.map.entries }
    {
        self.map.get(label)
    }

    /// The bytes of a label: none where it names nothing. It takes no memory.
    pub fn bytes(&self, label: &Label) -> &[u8]
        ensures { (labels : List Labelled) → AreLabels self.now.map.entries labels → result.now ≡ bytes_in labels label.now }
    {
        match self.get(label.bytes()) {
            Some(given) => given.bytes.as_slice(),
            None => &[],
        }
    }

    /// The signed statement of a label, if it names one. It takes no memory.
    pub fn signed(&self, label: &Label) -> Option<&Signed>
        ensures { (labels : List Labelled) → AreLabels self.now.map.entries labels → option_copied result ≡ signed_of_label labels label.now }
    {
        let signed = self.get(label.bytes())?.signed.as_ref()?;
        Some(signed.get())
    }

    /// The update in a label's signed statement, if it is one. It takes no memory.
    pub fn update(&self, label: &Label) -> Option<&Update>
        ensures { (labels : List Labelled) → AreLabels self.now.map.entries labels → option_copied result ≡ option_and_then (λ s. first_update (update_in s.statement)) (signed_of_label labels label.now) }
    {
        update_of(self.signed(label)?)
    }

    /// The bytes of a label, if it is plain. It takes no memory.
    pub fn plain(&self, label: &Label) -> Option<&[u8]>
        ensures { (labels : List Labelled) → AreLabels self.now.map.entries labels → option_copied result ≡ plain_in labels label.now }
    {
        let given = self.get(label.bytes())?;
        match given.plain {
            true => Some(given.bytes.as_slice()),
            false => None,
        }
    }

    /// Gives a label what an event made, unless it names something already. Returns the line that reports it, from the
    /// arrow on, with its LF.
    pub fn give(&mut self, label: &Label, text: Text) -> Result<Bytes, Memory>
        ensures lines { IfOk result (λ lines. lines ≡ spaced text.answer ++ 10 ∷ []) }
        ensures labels { OnOk result (TakesIn self.old.map.entries (record { label = label.now; bytes = text.bytes; signed = text.signed; plain = text.plain }) self.new.map.entries) }
    {
        let Text {
            bytes,
            signed,
            plain,
            answer,
        } = text;
        let given = Given {
            bytes,
            signed: put_apart(self.alloc, signed)?,
            plain,
        };
        self.put(label.bytes(), given)?;
        let mut lines = Bytes::from_slice(self.alloc, b" ")?;
        lines.push_all(answer.as_slice())?;
        lines.push_all(b"\n")?;
        Ok(lines)
    }

    /// Gives the label that a node's event makes, if any, what the node handed out, unless it names something already.
    pub fn keep(&mut self, event: &Event, bytes: Bytes) -> Result<(), Memory>
        ensures { OnOk result ((labels : List Labelled) → AreLabels self.old.map.entries labels → AreLabels self.new.map.entries (labels_with labels (label_by event.now) bytes)) }
    {
        match label_of(event) {
            Some(label) => self.put(
                label.bytes(),
                Given {
                    bytes: fitted(bytes),
                    signed: None,
                    plain: false,
                },
            ),
            None => Ok(()),
        }
    }

    /// Forgets a label: it names nothing any more. It takes no memory.
    pub fn forget(&mut self, label: &Label)
        ensures { (labels : List Labelled) → AreLabels self.old.map.entries labels → AreLabels self.new.map.entries (labels_without label.now labels) }
    {
        self.map.remove(label.bytes());
    }

    /// Gives a label what an event made, unless it names something already.
    fn put(&mut self, label: &[u8], given: Given) -> Result<(), Memory>
        ensures { OnOk result (TakesIn self.old.map.entries (record { label = label.now; bytes = given.bytes; signed = given.signed; plain = given.plain }) self.new.map.entries) }
    {
        if self.map.contains_key(label) {
            return Ok(());
        }
        let name = Vec::from_slice(self.alloc, label)?;
        self.map.insert(name, given)?;
        Ok(())
    }
}

/// The same bytes, without the memory that was found for more of them.
fn fitted(bytes: Bytes) -> Bytes
    ensures { result ≡ bytes }
{
    let mut fitted = bytes.into_vec();
    fitted.shrink_to_fit();
    Bytes::from_vec(fitted)
}

/// The label that a node's event makes.
fn label_of(event: &Event) -> Option<&Label>
    ensures { option_copied result ≡ label_by event.now }
{
    match event {
        Event::Hello { label, .. } => Some(label),
        Event::Bundle { label, .. } => Some(label),
        Event::Checkpoint { label, .. } => Some(label),
        _ => None,
    }
}
