//! Tests of calls with each of their allocations refused in turn, and of calls that allocate
//! nothing.
#![tactic(auto)]

#[cfg(test)]
mod harness;
#[cfg(test)]
mod no_growths;
#[cfg(test)]
mod refused_growths;
