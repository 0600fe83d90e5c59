//! Books written down as nodes, and grown into trees.
use crate::rules::Rule;
use std::alloc::{AllocError, Global};

/// A rule or a body of a book: how deep it lies, from 1, and the number of its head. The nodes of a book stand in the order of the
/// text, each before its bodies.
#[derive(Clone, Copy)]
pub struct Node {
    pub depth: u8,
    pub head: u8,
}

/// The rules that the nodes of a depth and those below them write down. A record has the number of those that ended before it.
// `ended` is lent down and counted up, since it runs on through all depths.
fn grow_at(
    heap: Global,
    nodes: &[Node],
    depth: u8,
    ended: &mut u8,
) -> Result<Vec<Rule>, AllocError> {
    let mut rules = Vec::new(heap);
    for group in nodes.chunk_by(|_, next| next.depth > depth) {
        if let [node, inner @ ..] = group {
            let bodies = grow_at(heap, inner, depth.saturating_add(1), ended)?;
            rules.push(Rule {
                number: *ended,
                head: node.head,
                bodies,
            })?;
            *ended = ended.saturating_add(1);
        }
    }
    Ok(rules)
}

/// The rules that the nodes write down.
pub fn grow(heap: Global, nodes: &[Node]) -> Result<Vec<Rule>, AllocError> {
    grow_at(heap, nodes, 1, &mut 0)
}
