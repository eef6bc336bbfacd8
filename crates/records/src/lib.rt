// Reads of a table's records through the entries of the index that the check fills (FORMATS, "Tables").
#![tactic(auto)]

pub mod descriptor;
pub mod entry;
