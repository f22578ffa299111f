// The replies that are made from the device's records (2.4.4.2.5, 2.4.4.2.6).
#![tactic(auto)]

pub mod descriptor;
