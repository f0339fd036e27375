//! Tests of what no clause says of a whole audit: the words of refusals, reports as they are printed, ends that fail,
//! least settings, refused traces by both calls, and command lines.
#![tactic(auto)]

#[cfg(test)]
mod answers;
#[cfg(test)]
mod audits;
#[cfg(test)]
mod blocks;
#[cfg(test)]
mod command_lines;
#[cfg(test)]
mod ends;
#[cfg(test)]
mod least_settings;
#[cfg(test)]
mod objects;
#[cfg(test)]
mod refusals;
#[cfg(test)]
mod runs;
