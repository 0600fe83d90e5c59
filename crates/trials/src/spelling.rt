//! Rules spelt in each form, over keys that are told by a number.
use keys::Key;
use reader::{FeatureCode, Name, Written};
use std::alloc::{AllocError, Global};

/// A kind of key, in whose form rules are spelt.
// The crate `compare` has a trait of its own for this: the two share no code.
pub trait Spelling: Key + Written + Copy {
    /// The place of a rule's head.
    const HEAD_PLACE: usize;

    /// The place of the body in `zero_if`.
    const BODY_PLACE: usize;

    /// The rule of this key with no bodies.
    fn fact(heap: Global, key: u8) -> Result<Vec<u8>, AllocError>;

    /// The rule of the key 0 with this one as its body.
    fn zero_if(heap: Global, body: u8) -> Result<Vec<u8>, AllocError>;
}

/// In text, with the names `n0`, `n1` and so on.
impl Spelling for Name {
    const HEAD_PLACE: usize = 0;

    const BODY_PLACE: usize = 6;

    fn fact(heap: Global, key: u8) -> Result<Vec<u8>, AllocError> {
        Ok(format!(in heap; "n{key}")?.into_bytes())
    }

    fn zero_if(heap: Global, body: u8) -> Result<Vec<u8>, AllocError> {
        Ok(format!(in heap; "n0 if n{body}")?.into_bytes())
    }
}

/// In codes, with the features of class 258.
impl Spelling for FeatureCode {
    const HEAD_PLACE: usize = 1;

    const BODY_PLACE: usize = 5;

    fn fact(heap: Global, key: u8) -> Result<Vec<u8>, AllocError> {
        Ok(vec![in heap; 1, 1, 2, key, 2]?)
    }

    fn zero_if(heap: Global, body: u8) -> Result<Vec<u8>, AllocError> {
        Ok(vec![in heap; 1, 1, 2, 0, 1, 1, 2, body, 2, 2]?)
    }
}
