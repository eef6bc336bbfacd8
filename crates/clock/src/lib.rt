// The code for times: which there are, their seconds and order, their century, the octets of a node (FORMATS, "Times", "Centuries").
#![tactic(auto)]

pub mod calendar;
pub mod century;
pub mod own;
pub mod seconds;
