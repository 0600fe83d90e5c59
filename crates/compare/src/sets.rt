//! Sets of records by their numbers.
use crate::rules::Rule;
use std::alloc::AllocError;
use std::collections::BTreeSet;

/// The set with the numbers of these rules.
pub fn with_rules(set: &BTreeSet<u8>, rules: &[Rule]) -> Result<BTreeSet<u8>, AllocError> {
    let mut wider = set.clone()?;
    wider.extend(rules.iter().map(|rule| rule.number))?;
    Ok(wider)
}
