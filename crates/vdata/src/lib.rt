// The values of Vdatas.
#![tactic(auto)]

pub mod column;
pub mod format;
mod inside;
pub mod kind;
pub mod value;
