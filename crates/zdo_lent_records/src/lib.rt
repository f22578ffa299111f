// Matching and the active list over a lent run of endpoint records (2.4.4.2.6, 2.4.4.2.7).
#![tactic(auto)]

pub mod descriptor;
