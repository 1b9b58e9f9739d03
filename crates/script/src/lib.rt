// The rig's language: a line's words are read as a command, and a command's answer is shown.
#![tactic(auto)]

pub mod answers;
pub mod commands;
pub mod flaws;
pub mod lines;
pub mod read;
pub mod reading;
pub mod scripts;
pub mod tokens;
pub mod writing;
