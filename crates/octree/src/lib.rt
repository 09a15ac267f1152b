// The octree of a frame (docs/RULES.md, 'Octree'): the recursive builder that the calls Tree and Report rest on.
// build.rt: a node, and its children
#![tactic(auto)]

pub mod build;

// How large a tree is: the number of its nodes, and the greatest depth.
#[derive(Clone, Copy)]
pub struct TreeSize {
    pub nodes: usize,
    pub depth: usize,
}
