//! Defines the reasons for which a code is refused.
ghost use Rattle.std.specs.Prelude.{◌≡◌};
ghost use Rattle.jt_verify.specs.Names.{name_of};
ghost use Rattle.jt_verify.specs.declared.refusal.Refusal.TheVariants as refusals;

use jt_image::Flaw;
use jt_value::NoMemory;
use thiserror::Error;

/// The reason why a code is refused: a flaw with its unit and point, or lack of memory.
#[derive(Clone, Copy, Debug, PartialEq, Eq, Error)]
pub enum Refusal {
    #[error("{name} unit {unit} point {point}", name = flaw_name(.flaw))]
    Flaw {
        flaw: Flaw,
        unit: usize,
        point: usize,
    },
    #[error("K10 NoMemory")]
    NoMemory,
}

/// Returns the number, K1 to K9, and the name of a flaw.
pub fn flaw_name(flaw: &Flaw) -> &'static str
    ensures { result.now ≡ name_of flaw.now }
{
    match flaw {
        Flaw::MissingOperand => "K1 MissingOperand",
        Flaw::WrongKind => "K2 WrongKind",
        Flaw::DepthDiffers => "K3 DepthDiffers",
        Flaw::KindDiffers => "K4 KindDiffers",
        Flaw::JumpOut => "K5 JumpOut",
        Flaw::BadIndex => "K6 BadIndex",
        Flaw::BadReturn => "K7 BadReturn",
        Flaw::FallsOff => "K8 FallsOff",
        Flaw::TooDeep => "K9 TooDeep",
    }
}

impl From<NoMemory> for Refusal {
    ghost from_gives = { λ _ e. e ≡ refusals.NoMemory };

    fn from(_e: NoMemory) -> Refusal {
        Refusal::NoMemory
    }
}
