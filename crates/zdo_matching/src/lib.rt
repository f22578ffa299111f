// Which endpoints a match request finds (2.4.4.2.7).
#![tactic(auto)]

pub mod descriptor;
pub mod sought;
