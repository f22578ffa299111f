// The readers of replies that carry a list, or a descriptor behind its length (document 01, "Reply readers").
#![tactic(auto)]

pub mod readers;
