// What is shown of the pages of two sides: a line for each, and a picture with one mark a page.
#![tactic(auto)]

pub mod lines;
pub mod pages;
