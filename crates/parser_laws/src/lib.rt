//! How a tree of a CAPL source is read from its tokens, as laws.
//!
//! A reader is a total function of tokens: it gives what they begin with and the tokens behind it, or
//! nothing. `specs/Statement.antt` and `specs/File.antt` have the readers of statements, procedures and
//! files, over those of expressions and declarations. The laws say that they read exactly what the grammar
//! spells. No code is here: a parser that gives what its reader gives has these laws.
#![tactic(auto)]

ghost use Rattle.std.specs.Prelude.{◌≡◌, ◌↔◌, [], length, List, Some};
ghost use Rattle.capl_lexer.specs.declared.token.Tok.{Tok};
ghost use Rattle.capl_tree.specs.Tree.{IsTreeOf};
ghost use Rattle.capl_tree.specs.declared.file.FileTree.{FileTree};
ghost use Rattle.parser_laws.specs.File.{file};
ghost use Rattle.parser_laws.specs.Statement.{parts_of};

/// A tree is that of tokens exactly where the reader of files gives its parts and leaves no token.
pub fn trees_are_read()
    ensures { (tokens : List Tok) (tree : FileTree) →
        IsTreeOf tokens tree ↔ (file (parts_of (length tokens)) tokens ≡ Some (tree.items, [])) }
{}

/// Tokens spell at most one tree whose parts stand where they may and where their places say.
pub fn one_tree()
    ensures { (tokens : List Tok) (one other : FileTree) →
        IsTreeOf tokens one → IsTreeOf tokens other → one ≡ other }
{}
