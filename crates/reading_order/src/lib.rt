// Queue order: in every word that is accepted from a root the messages stand queue by queue.
#![tactic(auto)]

mod finding;
pub mod order;
