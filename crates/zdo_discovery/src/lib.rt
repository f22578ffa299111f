// What the device replies to a discovery request (document 01, "Binding and dispatch"). No binding table is handed to it.
#![tactic(auto)]

pub mod discovery;
pub mod host;
