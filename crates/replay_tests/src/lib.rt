//! Tests of what no clause says of one processor: the printed words and the laws of the definition, records and their
//! streams, and replays of worked recordings.
#![tactic(auto)]

#[cfg(test)]
mod answers;
#[cfg(test)]
mod calls;
#[cfg(test)]
mod definitions;
#[cfg(test)]
mod idle_policy;
#[cfg(test)]
mod nice_changes;
#[cfg(test)]
mod recordings;
#[cfg(test)]
mod records;
#[cfg(test)]
mod replays;
#[cfg(test)]
mod told_charges;
#[cfg(test)]
mod wide_companions;
#[cfg(test)]
mod wide_readings;
