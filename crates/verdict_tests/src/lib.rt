//! Tests of what no clause says of several processors: verdicts on worked recordings, replays in calls of a few steps,
//! books with pages in any order and with pages that aren't honest, auditors that wait for each other, that come in
//! each order, that stop, and that come in crowds.
#![tactic(auto)]

#[cfg(test)]
mod answers;
#[cfg(test)]
mod books;
#[cfg(test)]
mod calls;
#[cfg(test)]
mod crews;
#[cfg(test)]
mod idle_policy;
#[cfg(test)]
mod machines;
#[cfg(test)]
mod meetings;
#[cfg(test)]
mod nice_changes;
#[cfg(test)]
mod orders;
#[cfg(test)]
mod shelf;
#[cfg(test)]
mod stepwise;
#[cfg(test)]
mod stops;
#[cfg(test)]
mod told_charges;
#[cfg(test)]
mod verdicts;
#[cfg(test)]
mod windows;
