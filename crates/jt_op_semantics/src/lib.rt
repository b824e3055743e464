//! Defines the result of each operator, each test and `range`: a value or a fault.
//!
//! The definitions:
//! - `Operation`: operators by their ids; `Operands`: faults of unsuitable operands;
//! - `Arithmetic` and `Ranges`: numbers; `Joining`: texts and lists; `ItemOf`: items;
//! - `Comparing` and `Membership`: order and `in`; `Testing`: tests;
//! - `Making`: lists and maps made of values.
//!
//! Read specs/Operation.antt first: it has one case per operator.
#![tactic(auto)]
