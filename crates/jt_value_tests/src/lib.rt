//! Tests calls on values and operators that the program does not make, each with ample memory.
//! tests/rows/values.txt has the rows of the values and operators that templates print.
#![tactic(auto)]

#[cfg(test)]
mod calls;
#[cfg(test)]
mod maps;
#[cfg(test)]
mod texts;
