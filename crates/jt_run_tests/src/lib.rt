//! Tests calls on images, the verifier, runs and hosts that the program does not make, and texts of
//! errors that it does not print. The rows in `tests/rows/` test all that it prints.
#![tactic(auto)]

#[cfg(test)]
mod findings;
#[cfg(test)]
mod markups;
#[cfg(test)]
mod parts;
#[cfg(test)]
mod pieces;
#[cfg(test)]
mod rows;
#[cfg(test)]
mod sessions;
#[cfg(test)]
mod shapes;
#[cfg(test)]
mod slices;
#[cfg(test)]
mod source;
#[cfg(test)]
mod texts;
#[cfg(test)]
mod versions;
