#![tactic(auto)]

pub mod bus;
pub mod ports;
