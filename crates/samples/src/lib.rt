// Callers of the memories and of the rig's language: what they can prove, and examples as tests.
#![tactic(auto)]

#[cfg(test)]
mod memory_tests;
#[cfg(test)]
mod script_tests;
