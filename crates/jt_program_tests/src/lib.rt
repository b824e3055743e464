//! Tests the program's public calls over files in memory. The rows over the program itself test the
//! outputs and statuses of its commands.
#![tactic(auto)]

#[cfg(test)]
mod failing;
#[cfg(test)]
mod lines;
