//! Feature codes, the keys of the code form.
ghost use Rattle.std.specs.Prelude.{◌≡◌};
ghost use Rattle.reader.specs.CodeTotal.{code_reading};
ghost use Rattle.reader.specs.FeatureCodes.{same_code, code_at, no_code, Whole};
ghost use Rattle.std.proofs.Common.{rules};

use crate::codes::read_codes;
use crate::fault::ReaderFault;
use crate::outline::Outline;
use crate::written::Written;
use keys::Key;

/// A feature of a class, each by number.
#[derive(Clone, Copy, Debug, Default, PartialEq)]
pub struct FeatureCode {
    pub class: u16,
    pub feature: u8,
}

impl Key for FeatureCode {
    ghost same = { same_code };

    ghost reflexive = { Prim.search rules };

    ghost symmetric = { Prim.search rules };

    ghost transitive = { Prim.search rules };

    fn same_as(&self, other: &FeatureCode) -> bool {
        self == other
    }
}

/// The feature code that stands at `place`; where its three bytes run out, the one of zeros.
fn code_at(bytes: &[u8], place: usize) -> FeatureCode
    ensures whole { Whole bytes.now place → result ≡ code_at bytes.now place }
    ensures cut { (Whole bytes.now place → ⊥) → result ≡ no_code }
{
    match bytes.get(place..) {
        Some([high, low, feature, ..]) => FeatureCode {
            class: u16::from_be_bytes([*high, *low]),
            feature: *feature,
        },
        _ => FeatureCode::default(),
    }
}

impl Written for FeatureCode {
    ghost reading = { code_reading };

    fn outline(bytes: &[u8]) -> Result<Outline, ReaderFault> {
        read_codes(bytes)
    }

    fn key_at(bytes: &[u8], place: usize) -> FeatureCode {
        code_at(bytes, place)
    }
}
