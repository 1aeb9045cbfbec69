// The sheet's part of a line: the word of a mode, an answer that is fed, and the text of a sheet.
#![tactic(auto)]

pub mod answer;
pub mod mode;
pub mod print;
