//! Checks the static rules of names and calls.
//!
//! `find_broken` (in `checking`) visits the list of the uses of each template (`uses`, `calls`,
//! `arguments`), and returns the first broken rule with its place (`finding`);
//! `check_rules` returns only the rule. `scope` looks up what can be called. Read first:
//! specs/Rules.antt of jt_rules, specs/Findings.antt, and uses.rt, which follows the rules.
#![tactic(auto)]

mod arguments;
mod calls;
mod checking;
mod finding;
mod scope;
mod uses;

pub use checking::{check_rules, find_broken};
pub use finding::{Finding, Subject};
