//! Whole runs over files and a sink in memory: scripts, transcripts, statuses, and the files that are left.
#![tactic(auto)]

#[cfg(test)]
mod binary;
#[cfg(test)]
mod chains;
#[cfg(test)]
mod contents;
#[cfg(test)]
mod counting;
#[cfg(test)]
mod forms;
#[cfg(test)]
mod prefixes;
#[cfg(test)]
mod refused;
#[cfg(test)]
mod runs;
#[cfg(test)]
mod steps;
#[cfg(test)]
mod written;
