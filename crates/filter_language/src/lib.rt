//! Grammar, parser and text of filter expressions.
//!
//! - `parser` parses a text into steps, in one pass over its tokens. `change` and `words` have what a token changes, by
//!   the part of the operand before it (`mode`) and the qualifiers in force (`head`).
//! - `step` has the steps: an expression is a flat list of tests and forward skips.
//! - `printing` and `canonical` print steps as text, with no redundant parentheses or with all.
//!
//! `specs/` defines the language twice: `Grammar` by the tokens of each expression, with the errors in `Refusals`, and
//! `States` as a machine that reads one token at a time. Public contracts are about the grammar.
#![tactic(auto)]

pub mod canonical;
mod change;
pub mod head;
pub mod mode;
pub mod parser;
pub mod printing;
pub mod step;
mod words;
