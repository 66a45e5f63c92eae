//! A filter from good streams: it admits each of them, allows no other class, and is the least of its form that does.
#![tactic(auto)]

pub mod laws;
mod names;
mod samples;
mod text;

pub use samples::{SampleFault, Samples};
