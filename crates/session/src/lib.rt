// A session file, read in blocks: each call is made through the library, and its answer written as text.
#![tactic(auto)]

mod blocks;
mod lines;

pub use blocks::{Progress, Session, answer_block, begin, finish};
