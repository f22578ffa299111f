// Lines of a stream that comes in chunks of any length. (Added by document 01, for the program `answer`.)
#![tactic(auto)]

pub mod splitter;
