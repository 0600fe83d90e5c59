//! The limits of a rule as written.
ghost use Rattle.std.specs.Prelude.{◌≡◌, ◌<◌, ◌≤◌, length, MatchResult, IfErr};
ghost use Rattle.reader.specs.declared.fault.Reason.TheVariants.{Oversize};
ghost use Rattle.reader.specs.Limits.{rule_bytes};

use crate::fault::{ReaderFault, Reason};

/// The most bytes of a rule.
pub const RULE_BYTES: usize = 1024;
/// The most bytes of a name.
pub const NAME_BYTES: usize = 16;
/// The deepest rule: a whole rule has depth 1, its bodies depth 2, and so on.
pub const DEPTH: usize = 16;
/// The most bodies of a rule.
pub const BODIES: u8 = 8;
/// The most heads: between two of them stands another byte.
pub const HEADS: usize = 512;

/// Refuses an input of too many bytes.
pub(crate) fn check_size(bytes: &[u8]) -> Result<(), ReaderFault>
    ensures size { MatchResult result (λ _. length bytes.now ≤ rule_bytes) (λ _. rule_bytes < length bytes.now) }
    ensures refused { IfErr result (λ f. f ≡ record { reason = Oversize; place = rule_bytes }) }
{
    if bytes.len() > RULE_BYTES {
        Err(ReaderFault {
            reason: Reason::Oversize,
            place: RULE_BYTES,
        })
    } else {
        Ok(())
    }
}
