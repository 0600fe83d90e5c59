//! The limits of the service.

/// So many suppositions may stand.
pub const SUPPOSITIONS: usize = 32;
/// So many bytes a tree or its buffer may have.
pub const TREE_BYTES: usize = 16_384;
