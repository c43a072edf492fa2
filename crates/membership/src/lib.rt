// Queue diagrams: whether contents belong to a control state of a session file.
#![tactic(auto)]

pub mod member;
pub mod reply;
