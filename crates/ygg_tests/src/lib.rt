//! Tests of crates through their public calls, by the worked rows. They stand apart because a crate that has tests is proved twice. What can be seen of
//! the program is tried there (tests/run). Steps answer whether all went well: out of memory is a failure too. What they own is dropped by a call, which costs
//! the prover less than the end of its scope.
#![tactic(auto)]

#[cfg(test)]
mod certificates;
#[cfg(test)]
mod copies;
#[cfg(test)]
mod devices;
#[cfg(test)]
mod disks;
#[cfg(test)]
mod outside;
#[cfg(test)]
mod propagation;
#[cfg(test)]
mod terms;
