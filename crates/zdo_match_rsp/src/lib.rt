// Replies that carry a list of bytes behind its count, and the match reply's error (2.4.4.2.7).
#![tactic(auto)]

pub mod descriptor;
