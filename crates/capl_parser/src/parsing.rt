// The tree of a whole file.

ghost use Rattle.std.specs.Prelude.{◌≡◌, ◌<◌, ◌≤◌, ◌^◌, IfOk, IfErr, OnOk, length};
ghost use Rattle.capl_nesting.specs.Tokens.{toks};
ghost use Rattle.capl_tree.specs.Nesting.{nesting};
ghost use Rattle.capl_grammar.specs.File.{IsSourceOf};
ghost use Rattle.capl_tree.specs.declared.file.FileTree.{FileTree};
ghost use Rattle.capl_parser.specs.Refusal.{nesting_limit, IsRefusalOf};

use crate::file::read_file;
use crate::refusal::ParseRefusal;
use capl_lexer::Token;
use capl_nesting::is_deeper_than;
use capl_tree::FileTree;
use expr_parser::{Cursor, Refusal};
use std::alloc::Global;
use viable_prefixes::first_wrong_token;

/// How deep the tokens of a file may nest.
pub const NESTING_LIMIT: u32 = 200;

/// The tree of a file with these tokens, whose places are numbers of 32 bits. Takes time and memory linear
/// in the number of the tokens; how deep its calls go, the nesting of the tokens bounds.
///
/// Deep comes exactly where the tokens nest more than 200 deep, NotSpelled exactly where they do not and
/// no tree is spelled so, with the number of the first token with which they begin no tree any more, or of
/// all tokens where all of them begin one, and NoMemory only where the system gives no memory.
pub fn parse(alloc: Global, tokens: &[Token]) -> Result<FileTree, ParseRefusal>
    requires { length tokens.now < 2 ^ 32 }

    // The tokens spell the tree, whose parts stand where they may, and no other.
    ensures tree { IfOk result (λ tree. IsSourceOf (toks tokens.now) tree) }
    ensures only { IfOk result (λ tree.
        (other : FileTree) → IsSourceOf (toks tokens.now) other → other ≡ tree) }
    ensures within_limit { OnOk result (nesting (toks tokens.now) ≤ nesting_limit) }

    // They nest too deep, or spell no tree, and the token is the first wrong one.
    ensures refusal { IfErr result (IsRefusalOf (toks tokens.now)) }
{
    if is_deeper_than(alloc, tokens, NESTING_LIMIT)? {
        return Err(ParseRefusal::Deep);
    }
    let mut cursor = Cursor::new(alloc, tokens);
    match read_file(&mut cursor, tokens.len() as u32) {
        Ok(items) => Ok(FileTree { items }),
        Err(Refusal::NotSpelled) => {
            let token = first_wrong_token(alloc, tokens)?;
            Err(ParseRefusal::NotSpelled { token })
        }
        Err(Refusal::NoMemory) => Err(ParseRefusal::NoMemory),
    }
}
