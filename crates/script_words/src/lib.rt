//! The words of a script: a text is cut into lines and words, and each word is read as a number, a name or a keyword.
#![tactic(auto)]

pub mod cut;
pub mod keywords;
pub mod names;
pub mod words;
