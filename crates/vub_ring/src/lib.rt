//! The words of a split virtqueue between driver and device (VIRTIO 1.2, 2.7): definitions alone.
#![tactic(auto)]
