// The services as C functions on numbers and slices: reading, writing, membership, checking and replaying, for any input and any lent space.
#![tactic(auto)]

pub mod calls;
