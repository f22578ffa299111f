// The program `answer`, line by line: what it writes (document 01, "Counter-cases").
#![tactic(auto)]

pub mod session;
