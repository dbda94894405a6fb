// The pixels of a layer: one to which a candidate is brought, two that are joined, and all of them. No function here is a public call.
#![tactic(auto)]

mod buffers;
mod places;

pub use buffers::{Cell, Layer, LayerMut};
pub use places::{clear, join, put};
