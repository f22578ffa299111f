// The reasons that replies give (2.4.5), and the replies that are a status alone; `specs/` says what the other replies are (2.4.4).
#![tactic(auto)]

pub mod descriptor;
pub mod management;
