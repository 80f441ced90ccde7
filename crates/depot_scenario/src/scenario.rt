//! Where a schedule is played.
ghost use Rattle.std.specs.Prelude.{◌≡◌, true};
ghost use Rattle.depot_schedule.specs.EventWords.{is_declared};
ghost use Rattle.depot_world.specs.Setups.{Setup};
ghost use Rattle.depot_scenario.specs.MemberSigners.{signer_by, member_signer_of};
ghost use Rattle.depot_scenario.specs.Scenarios.{IsScenarioOf, IsSomeScenario};

use crate::signers::signer_of;
use depot_base::NodeId;
use depot_model::{Scheme, Signer};
use depot_schedule::Member;
use depot_sign::Roster;

/// The roster of all members, the scheme, the height of all trees, and the members with their signers, in one order.
#[derive(Drop)]
pub struct Scenario<'a, S, G> {
    pub roster: &'a Roster,
    pub scheme: S,
    pub height: u8,
    pub members: &'a [Member],
    pub signers: &'a [G],
}

impl<'a, S: Scheme, G: Signer> Scenario<'a, S, G> {
    /// The signer of a member. It takes no memory.
    pub fn signer_of(&self, node: NodeId) -> &'a G
        requires declared { is_declared self.now.members.now node ≡ true }
        requires scenario { IsSomeScenario S.verifies G.key_of G.signature_of self.now }
        ensures height { (G.key_of result.now).height ≡ self.now.height }
        ensures signer { (setup : Setup) → IsScenarioOf S.verifies G.key_of G.signature_of setup self.now → signer_by G.key_of G.signature_of result.now ≡ member_signer_of setup.suite setup.height node }
    {
        match signer_of(self.members, self.signers, node) {
            Some(signer) => signer,
            None => unreachable!(),
        }
    }
}
