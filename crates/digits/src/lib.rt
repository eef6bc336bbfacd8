// Contents octets of times (X.690, 8.25 and 8.26; FORMATS, "Messages"), read and put. Every function that another crate can call is total.
#![tactic(auto)]

pub mod time;
