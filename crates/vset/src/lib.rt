// What Vgroups and heads of Vdatas share: the fields that they end in, and columns of numbers.
#![tactic(auto)]

pub mod column;
pub mod format;
pub mod tail;
