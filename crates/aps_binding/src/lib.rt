// An entry of the binding table (2.2.8.2.1).
#![tactic(auto)]

pub mod binding;
