// Contents octets of integers (X.690, 8.3) and bit strings (8.6), read and put. Every function that another crate can call is total: octets
// that have no room are not put.
#![tactic(auto)]

pub mod bit_string;
pub mod integer;
