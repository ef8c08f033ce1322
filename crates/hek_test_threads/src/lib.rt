//! Tests with threads: workers, and lock words that change without a lock round them.
#![tactic(auto)]

#[cfg(test)]
mod books;
#[cfg(test)]
mod crowds;
#[cfg(test)]
mod live;
#[cfg(test)]
mod memory;
#[cfg(test)]
mod pace;
#[cfg(test)]
mod scene;
