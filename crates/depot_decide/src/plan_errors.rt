//! Why no put, no next update or no vouchers are planned: the errors that can come before room is checked, and no
//! others.
ghost use Rattle.std.specs.Prelude.{◌≡◌};
ghost use Rattle.depot_decide.specs.PlanErrors.{of_next, put_error_of, voucher_error_of};
ghost use Rattle.depot_decide.specs.declared.plan_errors.NextError.TheVariants as next_error;
ghost use Rattle.depot_decide.specs.declared.plan_errors.PlanError.TheVariants as plan_error;
ghost use Rattle.depot_decide.specs.declared.plan_errors.VoucherPlanError.TheVariants as voucher_error;

use depot_base::{Hash32, Memory};
use depot_model::{PutError, VoucherError};

/// Why no next own update is made.
#[derive(Clone, Copy, Debug, PartialEq, Eq)]
pub enum NextError {
    /// Memory ran out.
    Memory,
    /// It would have this many entries, more than 1,024.
    Tips(u32),
}

impl From<Memory> for NextError {
    ghost from_gives = { λ _ e. e ≡ next_error.Memory };

    fn from(_e: Memory) -> NextError {
        NextError::Memory
    }
}

/// Why no put is planned.
#[derive(Clone, Copy, Debug, PartialEq, Eq)]
pub enum PlanError {
    /// Memory ran out.
    Memory,
    /// The node has made this many statements, and no leaf is left to sign another.
    Spent(u32),
    /// The update would have this many entries, more than 1,024.
    Tips(u32),
    /// The update's id is 32 zero bytes or that of an accepted update.
    Collides(Hash32),
}

impl From<Memory> for PlanError {
    ghost from_gives = { λ _ e. e ≡ plan_error.Memory };

    fn from(_e: Memory) -> PlanError {
        PlanError::Memory
    }
}

impl From<NextError> for PlanError {
    ghost from_gives = { λ n e. e ≡ of_next n };

    fn from(e: NextError) -> PlanError {
        match e {
            NextError::Memory => PlanError::Memory,
            NextError::Tips(count) => PlanError::Tips(count),
        }
    }
}

impl From<PlanError> for PutError {
    ghost from_gives = { λ p e. e ≡ put_error_of p };

    fn from(e: PlanError) -> PutError {
        match e {
            PlanError::Memory => PutError::Memory,
            PlanError::Spent(count) => PutError::Spent(count),
            PlanError::Tips(count) => PutError::Tips(count),
            PlanError::Collides(id) => PutError::Collides(id),
        }
    }
}

/// Why no vouchers are planned.
#[derive(Clone, Copy, Debug, PartialEq, Eq)]
pub enum VoucherPlanError {
    /// Memory ran out.
    Memory,
    /// The node has made this many statements, and too few leaves are left to sign the vouchers.
    Spent(u32),
}

impl From<Memory> for VoucherPlanError {
    ghost from_gives = { λ _ e. e ≡ voucher_error.Memory };

    fn from(_e: Memory) -> VoucherPlanError {
        VoucherPlanError::Memory
    }
}

impl From<VoucherPlanError> for VoucherError {
    ghost from_gives = { λ p e. e ≡ voucher_error_of p };

    fn from(e: VoucherPlanError) -> VoucherError {
        match e {
            VoucherPlanError::Memory => VoucherError::Memory,
            VoucherPlanError::Spent(count) => VoucherError::Spent(count),
        }
    }
}
