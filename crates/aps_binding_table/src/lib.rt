// The binding table: bind and unbind (2.2.8.2; 004).
#![tactic(auto)]

pub mod binding;
