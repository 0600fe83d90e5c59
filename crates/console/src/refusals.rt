//! Why a line is refused.
ghost use Rattle.std.specs.Prelude.{◌≡◌};
ghost use Rattle.console.specs.Refusals.{refused_number, refused_place};
ghost use Rattle.console.specs.declared.refusals.Refused.TheVariants as refused;

use crate::limits::{NOT_TAKEN, UNKNOWN};
use service::Fault;

/// Why a line is refused. The fault of the service lies in it whole.
#[derive(Clone, Copy)]
pub enum Refused {
    /// This state does not take the line.
    NotTaken,
    /// It is no order.
    Unknown,
    /// The call that it orders is refused.
    Call(Fault),
}

impl Refused {
    /// The number of the refusal.
    pub(crate) fn number(self) -> u8
        ensures { result ≡ refused_number self }
    {
        match self {
            Refused::NotTaken => NOT_TAKEN,
            Refused::Unknown => UNKNOWN,
            Refused::Call(fault) => fault.number(),
        }
    }

    /// The place of what is refused: for the console's own refusals the line's beginning.
    pub(crate) fn place(self) -> usize
        ensures { result ≡ refused_place self }
    {
        match self {
            Refused::NotTaken | Refused::Unknown => 0,
            Refused::Call(fault) => fault.place(),
        }
    }
}

impl From<Fault> for Refused {
    ghost from_gives = { λ e r. r ≡ refused.Call e };

    fn from(e: Fault) -> Refused {
        Refused::Call(e)
    }
}
