//! Laws that tie what the bytes of a request mean to what a block device does for it.
#![tactic(auto)]

mod laws;

pub use laws::{
    buffers_have_the_bytes_given, bytes_mean_the_request, sectors_are_those_of_the_request,
};
