// The arithmetic units of a core (6.1.2 to 6.1.5), each by its control bits. The matches are the printed tables: the
// report names these bits and no kinds.
#![tactic(auto)]

pub mod alu;
pub mod branch;
pub mod multiplication;
pub mod shift;
