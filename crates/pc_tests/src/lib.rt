//! Tests of the public calls of crates that are long to prove. They are in a crate that has nothing else, since a crate
//! with tests is proved twice.
//!
//! Each test function is proved too, and one that has several values with memory is long to prove, so a helper makes
//! the value, calls it, and returns plain numbers.
#![tactic(auto)]

#[cfg(test)]
mod bench;
#[cfg(test)]
mod cases;
#[cfg(test)]
mod certificates;
#[cfg(test)]
mod curves;
#[cfg(test)]
mod decks;
#[cfg(test)]
mod examples;
#[cfg(test)]
mod figures;
#[cfg(test)]
mod loads;
#[cfg(test)]
mod names;
#[cfg(test)]
mod optima;
#[cfg(test)]
mod parts;
#[cfg(test)]
mod points;
#[cfg(test)]
mod priced;
#[cfg(test)]
mod projects;
#[cfg(test)]
mod schedules;
#[cfg(test)]
mod searches;
#[cfg(test)]
mod slacks;
#[cfg(test)]
mod small;
#[cfg(test)]
mod statuses;
#[cfg(test)]
mod surface;
#[cfg(test)]
mod tasks;
#[cfg(test)]
mod times;
#[cfg(test)]
mod titles;
#[cfg(test)]
mod written;
