// Node and power replies, and the errors that carry the address of interest (2.4.4.2).
#![tactic(auto)]

pub mod descriptor;
