//! The history of a server: what happened to it over however many calls, as its transport makes them.
//! Laws alone: over any history its turns are in order and its books are kept.
#![tactic(auto)]

pub mod laws;
mod uses;
