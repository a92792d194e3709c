// Heads of Vdatas: their records read and packed.
#![tactic(auto)]

pub mod field;
pub mod format;
pub mod head;
