//! Tests of the top calls, `run`, `check_run` and `session_run`, on decks and edges in memory. They are in a crate that
//! has nothing else, since a crate with tests is proved twice.
#![tactic(auto)]

#[cfg(test)]
mod bench;
#[cfg(test)]
mod checks;
#[cfg(test)]
mod edges;
#[cfg(test)]
mod examples;
#[cfg(test)]
mod flushes;
#[cfg(test)]
mod keys;
#[cfg(test)]
mod runs;
#[cfg(test)]
mod sessions;
#[cfg(test)]
mod testing;
#[cfg(test)]
mod trials;
