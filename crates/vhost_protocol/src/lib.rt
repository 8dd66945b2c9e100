//! A vhost-user device's side of two formats: `messages` decodes the messages of a front end, and `chains` follows
//! the chains of descriptors in a guest's queues.
#![tactic(auto)]

pub mod chains;
pub mod messages;
pub mod numbers;
