//! The calls of a register's writer, and the answers to them.

use crate::commands::Command;
use crate::refusals::Refusal;

/// A call of the writer.
#[derive(Clone, Copy, Debug, PartialEq, Eq)]
pub enum Order {
    /// Submits a command to the register.
    Submit(Command),
    /// Publishes all accepted commands.
    Publish,
}

/// The answer to an order.
#[derive(Clone, Copy, Debug, PartialEq, Eq)]
pub enum Answer {
    /// The command was accepted; the number of commands accepted so far.
    Accepted(u32),
    /// The command was refused, and the register is unchanged.
    Refused(Refusal),
    /// The publication is done; the number of commands published.
    Published(u32),
}
