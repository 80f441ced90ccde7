//! Reads references, and lists of them.
ghost use Rattle.std.specs.Prelude.{◌≡◌, ◌++◌, [], ◌∷◌, Ok, IfOk};
ghost use Rattle.depot_base.specs.declared.limits.TheConstants.{MOST_ENTRIES, MOST_IDS, MOST_WRITES};
ghost use Rattle.depot_lines.specs.Language.{next, read_parts, split, or_none, or_empty};
ghost use Rattle.depot_schedule.specs.EventWords.{label_ref, own_ref, reference, reference_for, references, references_for, vouched_references};
ghost use Rattle.depot_lines.specs.LineReading.{AnswersReading, TakesReading, gathered, first_fault, GathersMore};

use crate::draft::Draft;
use crate::schedule_words::{label_for_of, seq_of};
use depot_base::limits::{MOST_ENTRIES, MOST_IDS, MOST_WRITES};
use depot_base::{Memory, Sequence};
use depot_lines::spelling::is;
use depot_lines::word_readers::id_of;
use depot_lines::{LineError, LineFault, Parts, earlier};
use depot_schedule::{Ref, Refs, Wanted};
use std::alloc::Global;

/// The own update that the words round a dot name.
fn own_ref(node_word: &[u8], seq_word: &[u8], behind: &Draft) -> Result<Ref, LineError>
    ensures { AnswersReading result (own_ref behind.now node_word.now seq_word.now) }
{
    let node = id_of(node_word)?;
    let seq = seq_of(seq_word, behind)?;
    if behind.is_correct(node) {
        Ok(Ref::Own { node, seq })
    } else {
        Err(LineError::In(LineFault::Node))
    }
}

/// What a word without a dot names.
fn label_ref(alloc: Global, word: &[u8], behind: &Draft, wanted: Wanted) -> Result<Ref, LineError>
    ensures { AnswersReading result (label_ref wanted behind.now word.now) }
{
    Ok(Ref::Label(label_for_of(alloc, word, behind, wanted)?))
}

/// The reference that a word is: a label of the needed kind, or an own update.
fn reference_of(
    alloc: Global,
    word: &[u8],
    behind: &Draft,
    wanted: Wanted,
) -> Result<Ref, LineError>
    ensures { AnswersReading result ((reference_for wanted).read behind.now word.now) }
{
    let mut parts = Parts::new(word, b'.');
    let Some(first) = parts.next() else {
        return Err(LineError::In(LineFault::Label));
    };
    let Some(second) = parts.next() else {
        return label_ref(alloc, first, behind, wanted);
    };
    if parts.is_done() {
        own_ref(first, second, behind)
    } else {
        Err(LineError::In(LineFault::Number))
    }
}

/// The references so far, and the one of their faults that is looked for first.
#[derive(Drop)]
struct GatheredRefs {
    refs: Refs,
    fault: Option<LineFault>,
}

impl GatheredRefs {
    /// One reference more.
    fn with_ref(self, reference: Ref) -> Result<GatheredRefs, Memory>
        ensures { IfOk result (λ g. (g.refs ≡ self.refs ++ reference ∷ []) × (g.fault ≡ self.fault)) }
    {
        let mut gathered = self;
        gathered.refs.push(reference)?;
        Ok(gathered)
    }

    /// One fault more.
    fn with_fault(self, fault: LineFault) -> GatheredRefs
        ensures { (result.refs ≡ self.refs) × (result.fault ≡ first_fault self.fault fault) }
    {
        let fault = match self.fault {
            None => fault,
            Some(first) => earlier(first, fault),
        };
        GatheredRefs {
            refs: self.refs,
            fault: Some(fault),
        }
    }

    /// One part of the word more.
    fn with_part(
        self,
        alloc: Global,
        part: &[u8],
        behind: &Draft,
        wanted: Wanted,
    ) -> Result<GatheredRefs, Memory>
        ensures { IfOk result (λ g. GathersMore self.fault self.refs ((reference_for wanted).read behind.now part.now) g.fault g.refs) }
    {
        match reference_of(alloc, part, behind, wanted) {
            Ok(reference) => self.with_ref(reference),
            Err(LineError::Memory) => Err(Memory),
            Err(LineError::In(fault)) => Ok(self.with_fault(fault)),
        }
    }

    /// Their outcome.
    fn end(self) -> Result<Refs, LineError>
        ensures { AnswersReading result (gathered self.fault self.refs (Ok [])) }
    {
        match self.fault {
            None => Ok(self.refs),
            Some(fault) => Err(LineError::In(fault)),
        }
    }
}

/// The references between the commas of a word.
fn all_references(
    alloc: Global,
    word: &[u8],
    behind: &Draft,
    wanted: Wanted,
) -> Result<Refs, LineError>
    ensures { AnswersReading result (read_parts ((reference_for wanted).read behind.now) (split 44 word.now)) }
{
    let mut gathered = GatheredRefs {
        refs: Sequence::new(alloc),
        fault: None,
    };
    let mut parts = Parts::new(word, b',');
    while let Some(part) = parts.next() {
        gathered = gathered.with_part(alloc, part, behind, wanted)?;
    }
    gathered.end()
}

/// The references of a word, at most so many.
fn references_of(
    alloc: Global,
    word: &[u8],
    behind: &Draft,
    wanted: Wanted,
    most: usize,
) -> Result<Refs, LineError>
    ensures { AnswersReading result ((references_for wanted most).read behind.now word.now) }
{
    let refs = all_references(alloc, word, behind, wanted)?;
    if refs.as_slice().len() <= most {
        Ok(refs)
    } else {
        Err(LineError::In(LineFault::Label))
    }
}

/// The next word of a line, as what a voucher names: 1 to 256 updates or labels of plain bytes.
pub fn vouched(alloc: Global, words: &mut Parts<'_>, behind: &Draft) -> Result<Refs, LineError>
    ensures { TakesReading result words.new (next ((vouched_references MOST_IDS).read behind.now) words.old) }
{
    let word = words.word()?;
    references_of(alloc, word, behind, Wanted::Vouched, MOST_IDS as usize)
}

/// The next word of a line, as 1 to 16 updates.
pub fn some_updates(alloc: Global, words: &mut Parts<'_>, behind: &Draft) -> Result<Refs, LineError>
    ensures { TakesReading result words.new (next ((references MOST_WRITES).read behind.now) words.old) }
{
    let word = words.word()?;
    references_of(alloc, word, behind, Wanted::Update, MOST_WRITES as usize)
}

/// The next word of a line, as an update.
pub fn one_update(alloc: Global, words: &mut Parts<'_>, behind: &Draft) -> Result<Ref, LineError>
    ensures { TakesReading result words.new (next (reference.read behind.now) words.old) }
{
    let word = words.word()?;
    reference_of(alloc, word, behind, Wanted::Update)
}

/// The next word of a line, as a reference or none.
pub fn prev(alloc: Global, words: &mut Parts<'_>, behind: &Draft) -> Result<Option<Ref>, LineError>
    ensures { TakesReading result words.new (next ((or_none reference).read behind.now) words.old) }
{
    let word = words.word()?;
    if is(word, "-") {
        return Ok(None);
    }
    Ok(Some(reference_of(alloc, word, behind, Wanted::Update)?))
}

/// The next word of a line, as the references of an update: none or more, and at most 1,024.
pub fn deps(alloc: Global, words: &mut Parts<'_>, behind: &Draft) -> Result<Refs, LineError>
    ensures { TakesReading result words.new (next ((or_empty (references MOST_ENTRIES)).read behind.now) words.old) }
{
    let word = words.word()?;
    if is(word, "-") {
        return Ok(Sequence::new(alloc));
    }
    references_of(alloc, word, behind, Wanted::Update, MOST_ENTRIES as usize)
}
