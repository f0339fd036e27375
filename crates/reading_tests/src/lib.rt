//! Tests of what no clause says of the readers: lines, events and companions that are read as their formats mean them,
//! and the first cause of a refusal.
#![tactic(auto)]

#[cfg(test)]
mod answers;
#[cfg(test)]
mod beginnings;
#[cfg(test)]
mod charge_lines;
#[cfg(test)]
mod companions;
#[cfg(test)]
mod events;
#[cfg(test)]
mod idle_lines;
#[cfg(test)]
mod lines;
#[cfg(test)]
mod usual_lines;
