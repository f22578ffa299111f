// The readers of replies (document 01, "Reply readers"): the Rust's one, what most replies begin with, and those of node, power,
// address and status replies.
#![tactic(auto)]

pub mod descriptor;
pub mod readers;
