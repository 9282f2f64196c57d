//! Tests of capl_parser: sources with their trees, written as text, and how operators group.
//!
//! They stand here, above that crate, so that it is proved without them. parser_tests parses the sources.
#![tactic(auto)]

#[cfg(test)]
mod text_form;
#[cfg(test)]
mod trees;
