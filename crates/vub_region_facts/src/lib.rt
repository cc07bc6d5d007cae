//! What holds of the in-flight region of a split queue in each phase (vhost-user, "Inflight I/O
//! tracking"): definitions, and what each store leaves of them.
#![tactic(auto)]

pub mod laws;
