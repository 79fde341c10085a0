// The text's format: a text read from lent bytes into lent lists, and an answer written into lent bytes.
#![tactic(auto)]

pub mod reader;
pub mod writer;
