// The request that asks a device to leave (2.4.3.3.5).
#![tactic(auto)]

pub mod descriptor;
