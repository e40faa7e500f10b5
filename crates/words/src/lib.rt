// Tags, the vocabulary, numbers in bytes, bytes put into a buffer, a stack of bytes, and the scan that judges whether bytes are a
// well-nested word.
#![tactic(auto)]

pub mod bounds;
pub mod nesting;
pub mod numbers;
pub mod paste;
pub mod stack;
pub mod tag;
pub mod vocabulary;
