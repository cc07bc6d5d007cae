//! What holds of the in-flight region of a packed queue and of its slots between any two stores
//! (vhost-user, "Inflight I/O tracking"; VIRTIO 1.2, 2.8): definitions, lemmas and laws.
#![tactic(auto)]

pub mod laws;
