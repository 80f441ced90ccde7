//! Why a call on an object outside the run failed.
ghost use Rattle.std.specs.Prelude.{◌≡◌};
ghost use Rattle.depot_outside.specs.declared.outside_error.OutError.TheVariants as out_error;

/// An object outside the run failed. Its count of faults rose in the call.
#[derive(Clone, Copy, Debug, PartialEq, Eq)]
pub struct Failed;

/// Why a call on an object outside the run failed.
#[derive(Clone, Copy, Debug, PartialEq, Eq)]
pub enum OutError {
    /// Memory ran out.
    Memory,
    /// The object failed. Its count of faults rose in the call.
    Failed,
}

impl From<depot_base::Memory> for OutError {
    ghost from_gives = { λ _ e. e ≡ out_error.Memory };

    fn from(_e: depot_base::Memory) -> OutError {
        OutError::Memory
    }
}

impl From<Failed> for OutError {
    ghost from_gives = { λ _ e. e ≡ out_error.Failed };

    fn from(_e: Failed) -> OutError {
        OutError::Failed
    }
}
