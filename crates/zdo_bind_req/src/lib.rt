// The requests that name a binding (2.4.3.2.2, 2.4.3.2.3).
#![tactic(auto)]

pub mod descriptor;
