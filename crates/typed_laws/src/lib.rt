//! When a typed program does what its source does.
//!
//! A source means something on variables (capl_meaning), a typed program on cells (typed_tree). `Laid`
//! in specs/ lays a store out in cells, behind those of the event, and a place of the source in a place
//! in cells. `Agreement` says when a typed expression, place, statement, function or program does what
//! one of the source does: from each store, `this`, moment and number of turns, the run of the one on
//! the cells that the store is laid out in is that of the other, with its memory laid out. `Starts` has
//! what the cells hold at first, and `Seen` what a procedure sees of `this`: the frame, the key or neither.
//!
//! proofs/ has a lemma for each form: where the parts agree, the whole agrees. `Places` has those of
//! places, `Expressions` and `Calls` those of expressions, `Effects` those of expressions that stand
//! alone, `Statements` those of statements, `Programs` that of whole programs. A walk over a source that
//! makes a typed tree needs one of them for each form. Agreement is a fact about a tree alone. Only when
//! it is used, by a run of both, do the names of the source have to be distinct and the tables of the
//! typed program those of the names, so that the walk can give it before either is known.
//!
//! There is a tree for every expression and statement, also for one that breaks a rule;
//! docs/compiler.md says which.
#![tactic(auto)]

pub mod laws;
