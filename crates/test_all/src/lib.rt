//! Tests of all libraries, by their public calls alone: of what no contract says.
//!
//! They are in a crate of their own, since a check of a crate's tests proves the crate again; and
//! in one crate, since what they have in common is then proved once.
#![tactic(auto)]

#[cfg(test)]
mod every_asked_item;
#[cfg(test)]
mod files;
#[cfg(test)]
mod flags;
#[cfg(test)]
mod lines;
#[cfg(test)]
mod long_requests;
#[cfg(test)]
mod migration;
#[cfg(test)]
mod mock;
#[cfg(test)]
mod rows;
#[cfg(test)]
mod segments;
#[cfg(test)]
mod served_tree;
#[cfg(test)]
mod server;
#[cfg(test)]
mod session;
#[cfg(test)]
mod support;
#[cfg(test)]
mod transfers;
#[cfg(test)]
mod usage;
#[cfg(test)]
mod wire;
