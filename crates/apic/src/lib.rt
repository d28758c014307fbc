#![tactic(auto)]

pub mod active;
pub mod local;
