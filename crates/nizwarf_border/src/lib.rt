//! The static library of the programs: what a front end, and a guest, say of memory and queues, for C. Its headers
//! are `programs/transport/border.h` and `chain.h`, which say what may be passed: for a reference of the signatures
//! below C gives a pointer to what is there, never NULL. A slice is a pointer and then a length to C.
#![tactic(auto)]

mod chains;
mod vhost;
