//! Carries out a script with one writer thread and two reader threads, and audits what they read.
#![tactic(auto)]

mod gates;
mod plan;
mod reader_work;
mod serving;
mod threads;
mod writer_work;

pub use gates::{FreeGate, Gate, GateClosed, Place};
pub use serving::{Served, serve};
