// Operations on times that are handed in alone, each as the octets of one node (FORMATS, "Times" and "Centuries"). They have no table.
#![tactic(auto)]

pub mod conversion;
mod node;
pub mod reckoning;
