// The dispatcher: any request, from its cluster and payload to its reply (document 01, "Binding and dispatch").
#![tactic(auto)]

pub mod dispatcher;
