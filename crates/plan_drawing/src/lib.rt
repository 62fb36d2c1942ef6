//! A picture of a plan: as a tree of text, and for Graphviz.
#![tactic(auto)]

mod dot;
mod ends;
mod escaping;
mod marks;
mod notes;
mod patterns;
mod pieces;
mod rows;
mod sheet;
mod text;
mod words;

pub use dot::draw_dot;
pub use text::draw_text;
