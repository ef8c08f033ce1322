//! Tests that no case of tools/cases can say: devices and memory that fail, each call that takes memory, library calls that no command makes,
//! and models beside which a layer is held.
#![tactic(auto)]

#[cfg(test)]
mod asserts;
#[cfg(test)]
mod deadlock;
#[cfg(test)]
mod debugger;
#[cfg(test)]
mod device;
#[cfg(test)]
mod faults;
#[cfg(test)]
mod flat;
#[cfg(test)]
mod histories;
#[cfg(test)]
mod images;
#[cfg(test)]
mod lists;
#[cfg(test)]
mod machines;
#[cfg(test)]
mod orders;
#[cfg(test)]
mod parts;
#[cfg(test)]
mod refusals;
#[cfg(test)]
mod refused;
#[cfg(test)]
mod replies;
#[cfg(test)]
mod rules;
#[cfg(test)]
mod schedule;
#[cfg(test)]
mod sessions;
#[cfg(test)]
mod texts;
#[cfg(test)]
mod traces;
#[cfg(test)]
mod transcripts;
#[cfg(test)]
mod txns;
#[cfg(test)]
mod weak;
#[cfg(test)]
mod words;
