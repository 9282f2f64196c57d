// What the reader of declarations reads, in the words of the grammar.

ghost use Rattle.decl_parser.specs.Laws.{ReadsEachDeclaration, ReadsOnlyDeclarations};

/// A well formed declaration at its place is read from its tokens, whatever stands behind them. So no two
/// of them have the same tokens.
pub fn each_declaration_is_read()
    ensures { ReadsEachDeclaration }
{}

/// What is read is a well formed declaration at its place, and its tokens are those that were read.
pub fn only_declarations_are_read()
    ensures { ReadsOnlyDeclarations }
{}
