//! A node, as contracts see it.
ghost use Rattle.std.specs.Prelude.{ℕ, List, Bool};
ghost use Rattle.depot_base.specs.Calls.{Made};
ghost use Rattle.depot_base.specs.declared.key.PublicKey.{PublicKey};
ghost use Rattle.depot_base.specs.declared.record.Record.{Record};
ghost use Rattle.depot_model.specs.exchange.Bundle.{Signs};
ghost use Rattle.depot_model.specs.checks.Checks.{Setting};

/// A node, as contracts see it: who it is, its journal, and the disk on which it keeps that.
pub trait NodeState {
    /// Its setting: its scheme's answers, its own number and its roster.
    ghost stands: { Self → Setting };

    /// The records of its journal.
    ghost records: { Self → List Record };

    /// The public key under which it signs.
    ghost key: { Self → PublicKey };

    /// What its signer gives for a seq and a body.
    ghost signature_of: { Self → Signs };

    /// Whether it is stopped.
    ghost stopped: { Self → Bool };

    /// Which disk it keeps its journal on: no call changes it.
    ghost handle: { Self → ℕ };

    /// How often that disk has failed.
    ghost faults: { Self → ℕ };

    /// That disk never fails from now on. A node whose disk can't promise this keeps the default, which never holds.
    ghost is_faultless: { Self → Type 0 } = { λ _. ⊥ };

    /// Whether that disk's bytes and crash images are visible.
    ghost tells: { Self → Bool };

    /// The crash images of the disk at this moment.
    ghost may_leave: { Self → List ℕ → Type 0 };

    /// This moment of it, as a number that never falls.
    ghost moment: { Self → ℕ };

    /// The crash images of all moments since this one.
    ghost left_since: { Self → ℕ → List ℕ → Type 0 };

    /// The file on it, as it reads.
    ghost reads: { Self → List ℕ };

    /// The second is what the first became by these calls on the disk, each with whether it failed, and by no other.
    ghost after: { Self → List Made → Self → Type 0 };
}
