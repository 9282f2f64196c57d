// What the readers read, in the words of the grammar.

ghost use Rattle.expr_parser.specs.Laws.{ReadsEachSpelling, ReadsOnlySpellings};

/// A well formed expression at its place is read from its tokens, where no operator behind them goes on
/// with it. So no two of them have the same tokens.
pub fn each_spelling_is_read()
    ensures { ReadsEachSpelling }
{}

/// What is read is a well formed expression at its place, its tokens are those that were read, and no
/// operator behind them goes on with it.
pub fn only_spellings_are_read()
    ensures { ReadsOnlySpellings }
{}
