// Vgroups: their records read and packed, and the listing of nested groups.
#![tactic(auto)]

pub mod format;
pub mod group;
pub mod listing;
