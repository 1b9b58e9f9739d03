// A script that is understood.
use crate::commands::Command;
use crate::lines::Line;

// A line of a script, and what it says: a command, or nothing.
#[derive(PartialEq, Eq, Debug, Drop)]
pub struct Step {
    pub line: Line,
    pub command: Option<Command>,
}

#[derive(PartialEq, Eq, Debug, Drop)]
pub struct Script {
    pub steps: Vec<Step>,
}
