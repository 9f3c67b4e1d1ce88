//! Tests of the register, the halves of a board and the indices.
#![tactic(auto)]

#[cfg(test)]
mod boards;
#[cfg(test)]
mod coalitions;
#[cfg(test)]
mod examples;
#[cfg(test)]
mod halves;
#[cfg(test)]
mod registers;
