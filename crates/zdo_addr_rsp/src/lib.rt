// The replies about addresses (2.4.4.2.1, 2.4.4.2.2).
#![tactic(auto)]

pub mod descriptor;
