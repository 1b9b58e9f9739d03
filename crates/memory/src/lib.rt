// Memories as the layers above see them: the interface, its calls and its refusals.
#![tactic(auto)]

pub mod calls;
pub mod memory;
pub mod refusals;
