//! Defines the meaning of templates, by names and by slots, and proves that both agree.
//!
//! The crate has definitions, and one law (`laws`) that states the agreement for all chains. Read
//! specs/Meaning.antt first: it defines the meaning of statements. Then read
//! specs/Expressions.antt, and specs/Env.antt for scopes. specs/Resolve.antt defines how names
//! become slots.
#![tactic(auto)]

mod laws;

pub use laws::program_laws;
