//! Defines why a run of the reference machine stops.

use jt_budget::Spent;
use jt_filters::OpError;
use jt_value::{Fault, NoMemory, ValueError};
use std::alloc::{AllocError, AllocFailed};

/// The end of a run without a text: a fault, a spent number of the budget, a state without a
/// successor, or a refused growth.
#[derive(Clone, Copy)]
pub enum End {
    Fault(Fault),
    Spent(Spent),
    Wrong,
    Refused,
}

impl From<NoMemory> for End {
    ghost use Rattle.std.specs.Prelude.{◌≡◌};
    ghost use Rattle.jt_reference.specs.declared.end.End.TheVariants.{Refused};

    ghost from_gives = { λ _ e. e ≡ Refused };

    fn from(_refused: NoMemory) -> End {
        End::Refused
    }
}

impl From<AllocError> for End {
    ghost use Rattle.std.specs.Prelude.{◌≡◌};
    ghost use Rattle.jt_reference.specs.declared.end.End.TheVariants.{Refused};

    ghost from_gives = { λ _ e. e ≡ Refused };

    fn from(_refused: AllocError) -> End {
        End::Refused
    }
}

impl<T: Drop> From<AllocFailed<T>> for End {
    ghost use Rattle.std.specs.Prelude.{◌≡◌};
    ghost use Rattle.jt_reference.specs.declared.end.End.TheVariants.{Refused};

    ghost from_gives = { λ _ e. e ≡ Refused };

    fn from(_refused: AllocFailed<T>) -> End {
        End::Refused
    }
}

impl From<ValueError> for End {
    ghost use Rattle.std.specs.Prelude.{◌≡◌};
    ghost use Rattle.jt_reference.specs.Ends.{end_of_value};

    ghost from_gives = { λ error e. e ≡ end_of_value error };

    fn from(error: ValueError) -> End {
        match error {
            ValueError::Fault(fault) => End::Fault(fault),
            ValueError::NoMemory => End::Refused,
        }
    }
}

impl From<OpError> for End {
    ghost use Rattle.std.specs.Prelude.{◌≡◌};
    ghost use Rattle.jt_reference.specs.Ends.{end_of_operation};

    ghost from_gives = { λ error e. e ≡ end_of_operation error };

    fn from(error: OpError) -> End {
        match error {
            OpError::Fault(fault) => End::Fault(fault),
            OpError::TooLarge => End::Spent(Spent::Size),
            OpError::TooDeep => End::Spent(Spent::Nesting),
            OpError::NoMemory => End::Refused,
        }
    }
}
