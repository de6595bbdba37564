//! Tests of the public calls of low crates, one module per crate, and two for each that reads or checks certificates.
//! They are in a crate that has nothing else, since a crate with tests is proved twice.
#![tactic(auto)]

#[cfg(test)]
mod accounts;
#[cfg(test)]
mod audit;
#[cfg(test)]
mod board;
#[cfg(test)]
mod cases;
#[cfg(test)]
mod cells;
#[cfg(test)]
mod cert_lines;
#[cfg(test)]
mod cert_reader;
#[cfg(test)]
mod conditions;
#[cfg(test)]
mod days;
#[cfg(test)]
mod edges;
#[cfg(test)]
mod examples;
#[cfg(test)]
mod faults;
#[cfg(test)]
mod net;
#[cfg(test)]
mod page;
#[cfg(test)]
mod records;
#[cfg(test)]
mod rollup;
#[cfg(test)]
mod small;
#[cfg(test)]
mod stair;
#[cfg(test)]
mod text;
#[cfg(test)]
mod wbs;
