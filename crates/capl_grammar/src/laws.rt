//! The law of the grammar. The call does nothing: its contract is the law.

ghost use Rattle.std.specs.Prelude.{◌↔◌, List};
ghost use Rattle.capl_lexer.specs.declared.token.Tok.{Tok};
ghost use Rattle.capl_tree.specs.declared.file.FileTree.{FileTree};
ghost use Rattle.capl_tree.specs.Tree.{IsTreeOf};
ghost use Rattle.capl_grammar.specs.File.{IsSourceOf};

/// Tokens are a source of a tree exactly where they spell it, each part has the place that it says, and each
/// stands where it may.
pub fn sources_are_spelled_in_place()
    ensures { (tokens : List Tok) (file : FileTree) → IsSourceOf tokens file ↔ IsTreeOf tokens file }
{}
