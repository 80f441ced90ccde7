//! The labels that an event names.
ghost use Rattle.std.specs.Prelude.{◌≡◌, ◌∷◌, ◌++◌, [], true, map, IfOk};
ghost use Rattle.depot_world.specs.Forgetting.{labels_in, labels_of_prev, labels_of_ref, labels_of_refs};
ghost use Rattle.depot_scenario.specs.Labels.{has_references};

use depot_base::Memory;
use depot_lines::Label;
use depot_schedule::{Event, Ref};
use std::alloc::Global;

/// The labels that an event names, the one that it makes too. The name of a reader is no label.
pub fn labels_of<'a>(alloc: Global, event: &'a Event) -> Result<Vec<&'a Label>, Memory>
    ensures { IfOk result (λ labels. map (λ label. label.now) labels.items ≡ labels_in event.now) }
{
    match event {
        Event::Hello { label, .. }
        | Event::Give { label, .. }
        | Event::Judge { label }
        | Event::Raw { label, .. }
        | Event::Checkpoint { label, .. }
        | Event::Sign { label, .. }
        | Event::Trim { label, .. }
        | Event::Tgive { label, .. } => one(alloc, label),
        Event::Bundle { hello, label, .. } => two(alloc, hello, label),
        Event::Cut { label, source, .. } | Event::Flip { label, source, .. } => {
            two(alloc, label, source)
        }
        Event::Proof {
            label,
            first,
            second,
            ..
        }
        | Event::Join {
            label,
            first,
            second,
        } => three(alloc, label, first, second),
        Event::Hollow {
            label,
            voucher,
            text,
        } => three(alloc, label, voucher, text),
        Event::Update { .. }
        | Event::Updates { .. }
        | Event::Voucher { .. }
        | Event::Receipt { .. }
        | Event::Settled { .. } => of_references(alloc, event),
        _ => Ok(Vec::new(alloc)),
    }
}

/// The labels that an event with references names.
fn of_references<'a>(alloc: Global, event: &'a Event) -> Result<Vec<&'a Label>, Memory>
    requires { has_references event.now ≡ true }
    ensures { IfOk result (λ labels. map (λ label. label.now) labels.items ≡ labels_in event.now) }
{
    match event {
        Event::Update {
            label,
            prev,
            deps,
            ..
        }
        | Event::Updates {
            label,
            prev,
            deps,
            ..
        } => of_update(alloc, label, prev, deps.as_slice()),
        Event::Voucher { label, refs, .. } => with_refs(one(alloc, label)?, refs.as_slice()),
        Event::Receipt { refs, .. } => with_refs(Vec::new(alloc), refs.as_slice()),
        Event::Settled { reference, .. } => with_ref(Vec::new(alloc), reference),
        _ => unreachable!(),
    }
}

/// One label.
fn one<'a>(alloc: Global, label: &'a Label) -> Result<Vec<&'a Label>, Memory>
    ensures { IfOk result (λ labels. map (λ label. label.now) labels.items ≡ label.now ∷ []) }
{
    let mut labels = Vec::new(alloc);
    labels.push(label)?;
    Ok(labels)
}

/// Two labels.
fn two<'a>(alloc: Global, first: &'a Label, second: &'a Label) -> Result<Vec<&'a Label>, Memory>
    ensures { IfOk result (λ labels. map (λ label. label.now) labels.items ≡ first.now ∷ second.now ∷ []) }
{
    let mut labels = Vec::new(alloc);
    labels.push(first)?;
    labels.push(second)?;
    Ok(labels)
}

/// Three labels.
fn three<'a>(
    alloc: Global,
    first: &'a Label,
    second: &'a Label,
    third: &'a Label,
) -> Result<Vec<&'a Label>, Memory>
    ensures { IfOk result (λ labels. map (λ label. label.now) labels.items ≡ first.now ∷ second.now ∷ third.now ∷ []) }
{
    let mut labels = Vec::new(alloc);
    labels.push(first)?;
    labels.push(second)?;
    labels.push(third)?;
    Ok(labels)
}

/// The label of an update that a faulty node signs, and those that name its parents.
fn of_update<'a>(
    alloc: Global,
    label: &'a Label,
    prev: &'a Option<Ref>,
    deps: &'a [Ref],
) -> Result<Vec<&'a Label>, Memory>
    ensures { IfOk result (λ labels. map (λ label. label.now) labels.items ≡ label.now ∷ (labels_of_prev prev.now ++ labels_of_refs deps.now)) }
{
    let labels = one(alloc, label)?;
    match prev {
        Some(reference) => with_refs(with_ref(labels, reference)?, deps),
        None => with_refs(labels, deps),
    }
}

/// Labels, and that of a reference, if it has one.
fn with_ref<'a>(labels: Vec<&'a Label>, reference: &'a Ref) -> Result<Vec<&'a Label>, Memory>
    ensures { IfOk result (λ more. map (λ label. label.now) more.items ≡ map (λ label. label.now) labels.entry.items ++ labels_of_ref reference.now) }
{
    let mut labels = labels;
    match reference {
        Ref::Label(label) => {
            labels.push(label)?;
            Ok(labels)
        }
        Ref::Own { .. } => Ok(labels),
    }
}

/// Labels, and those of references.
fn with_refs<'a>(labels: Vec<&'a Label>, refs: &'a [Ref]) -> Result<Vec<&'a Label>, Memory>
    ensures { IfOk result (λ more. map (λ label. label.now) more.items ≡ map (λ label. label.now) labels.entry.items ++ labels_of_refs refs.now) }
{
    let mut labels = labels;
    for reference in refs {
        labels = with_ref(labels, reference)?;
    }
    Ok(labels)
}
