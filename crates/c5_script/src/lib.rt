//! Scripts: tables, bodies of transactions, read blocks and a schedule.
#![tactic(auto)]

mod block;
mod blocks;
mod bodies;
mod closing;
mod fault;
mod front_parsing;
mod headings;
mod inside;
mod limits;
mod lines;
mod lists;
mod numerals;
mod parsing;
mod partial;
mod places;
mod questions;
mod script;
mod statements;
mod word;
mod words;

pub use blocks::ReadBlock;
pub use bodies::Body;
pub use c5_definitions::{Keys, ReadLine, Rel, ScriptFault, ScriptKind, Statement, TurnWord};
pub use front_parsing::{Front, parse_front};
pub use parsing::{ParseFault, parse};
pub use script::Script;

#[cfg(test)]
mod line_tests;
#[cfg(test)]
mod parsing_tests;
#[cfg(test)]
mod tests;
