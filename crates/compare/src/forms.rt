//! Rules spelt in each form.
use crate::rules::Rule;
use reader::{FeatureCode, Name, Written};
use std::alloc::{AllocError, Global};

/// A kind of key in whose form rules are spelt.
// The crate `trials` has a trait of its own for this: the two share no code.
pub trait Form: Written + Copy {
    /// The key of an unused slot.
    fn blank() -> Self;

    /// The bytes of a rule.
    fn spell(heap: Global, rule: &Rule) -> Result<Vec<u8>, AllocError>;
}

/// The byte that opens a rule in codes.
const OPEN: u8 = 1;

/// The byte that closes a rule in codes.
const CLOSE: u8 = 2;

/// The class of the head 0 in codes.
const FIRST_CLASS: u16 = 256;

/// Writes a rule in codes. The class of its head counts up with the number of the head, the feature counts down.
fn write_codes(out: &mut Vec<u8>, rule: &Rule) -> Result<(), AllocError> {
    let [high, low] = (FIRST_CLASS + u16::from(rule.head)).to_be_bytes();
    out.extend_from_slice(&[OPEN, high, low, u8::MAX - rule.head])?;
    for body in &rule.bodies {
        write_codes(out, body)?;
    }
    out.push(CLOSE)?;
    Ok(())
}

impl Form for Name {
    fn blank() -> Name {
        Name::new(b"")
    }

    fn spell(heap: Global, rule: &Rule) -> Result<Vec<u8>, AllocError> {
        Ok(format!(in heap; "{rule}")?.into_bytes())
    }
}

impl Form for FeatureCode {
    fn blank() -> FeatureCode {
        FeatureCode::default()
    }

    fn spell(heap: Global, rule: &Rule) -> Result<Vec<u8>, AllocError> {
        let mut out = Vec::new(heap);
        write_codes(&mut out, rule)?;
        Ok(out)
    }
}
