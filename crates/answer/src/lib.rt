// What a bank that has committed nothing and a board answer alike: a mark, and what a store means for an item.
#![tactic(auto)]

pub mod items;
pub mod mark;
