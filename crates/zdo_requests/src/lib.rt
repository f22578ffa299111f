// The types of the ten requests (2.4.3), the parsers of address, node, power, active and simple requests, and the request that is
// written; `specs/` says how each is read.
#![tactic(auto)]

pub mod descriptor;
