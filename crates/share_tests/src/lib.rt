//! Tests of the two-copy machine, of audits and of the running board, through their public names.
#![tactic(auto)]

#[cfg(test)]
mod boards;
#[cfg(test)]
mod examples;
#[cfg(test)]
mod schedules;
#[cfg(test)]
mod threads;
#[cfg(test)]
mod worked;
