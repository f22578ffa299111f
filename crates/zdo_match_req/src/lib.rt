// The request that names clusters (2.4.3.1.7).
#![tactic(auto)]

pub mod descriptor;
