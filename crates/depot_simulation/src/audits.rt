//! The audit of all nodes of a run.
ghost use Rattle.std.specs.Prelude.{◌≡◌, map, IfOk};
ghost use Rattle.std.specs.List.{AllByRecursion};
ghost use Rattle.depot_answers.specs.AnswerTexts.{spaced, text_of_finding};
ghost use Rattle.depot_traces.specs.SeenTraces.{finding_of, trace_of};
ghost use Rattle.depot_traces.specs.TraceTexts.{IsTrace};
ghost use Rattle.depot_requests.specs.Effects.{ended};
ghost use Rattle.depot_world.specs.Transcript.{audit_by};
ghost use Rattle.depot_simulation.specs.Auditing.{MayHandIn, handed_in};
ghost use Rattle.depot_simulation.specs.Playing.{IsPlayedOn, participant_by};
ghost use Rattle.depot_simulation.specs.EachRun.{SimulatesSoundOn};

use crate::actor::Actor;
use crate::simulation::Simulation;
use depot_answers::finding;
use depot_audit::audit;
use depot_base::{Bytes, Memory};
use depot_model::{Scheme, Signer};
use depot_scenario::Scenario;
use depot_traces::{Finding, Traces};
use std::alloc::Global;

impl<A: Actor> Simulation<A> {
    /// Audits all nodes, by their records and the reads that were kept of them. Returns the lines from the arrow on.
    pub fn audit<S: Scheme, G: Signer>(
        &self,
        scenario: &Scenario<'_, S, G>,
    ) -> Result<Bytes, Memory>
        requires { IsPlayedOn S.verifies G.key_of G.signature_of scenario.now A.view A.Reader.reads self.now }
        ensures { IfOk result (λ lines. SimulatesSoundOn S.verifies G.key_of G.signature_of scenario.now A.view A.Reader.reads self.now (λ setup run. audit_by setup run) lines self.now) }
    {
        let traces = self.traces()?;
        let found = audit(self.alloc, scenario.roster, &scenario.scheme, &traces)?;
        finding_line(self.alloc, found)
    }

    /// The traces of all nodes, in their order.
    fn traces(&self) -> Result<Traces, Memory>
        requires { MayHandIn self.now.participants.items }
        ensures fit { IfOk result (λ traces. AllByRecursion IsTrace traces) }
        ensures are { IfOk result (λ traces. map trace_of traces ≡ map handed_in (map (participant_by A.view) self.now.participants.items)) }
    {
        let mut traces = Traces::new(self.alloc);
        for participant in self.participants.as_slice() {
            traces.push(participant.actor.trace(participant.reads.as_slice())?)?;
        }
        Ok(traces)
    }
}

/// What an audit finds, after a space and with its LF.
#[tactic(auto, using(depot_base::proofs::Writing::texts))]
fn finding_line(alloc: Global, found: Finding) -> Result<Bytes, Memory>
    ensures { IfOk result (λ line. line ≡ ended (spaced (text_of_finding (finding_of found)))) }
{
    let mut line = Bytes::from_slice(alloc, b" ")?;
    finding(alloc, &mut line, found)?;
    line.push_all(b"\n")?;
    Ok(line)
}
