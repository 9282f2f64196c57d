// The files of a program.

use capl_lexer::Token;
use items::Items;
use texts::Text;

/// A file of a program.
#[derive(Debug, Drop)]
pub struct SourceFile {
    /// Its name, joined with the folder of the file that names it.
    pub name: Text,
    /// Its tokens, in order.
    pub tokens: Items<Token>,
}

/// The files of a program, in program order: each stands behind the files that it includes.
#[derive(Debug, Drop)]
pub struct Expanded {
    /// The files, of which [`crate::expand`] gives no two of one name.
    pub files: Items<SourceFile>,
}
