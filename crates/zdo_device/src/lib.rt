// The device's tables: its endpoint records, and the pools that they point into.
#![tactic(auto)]

pub mod descriptor;
pub mod tables;
