//! Laws of the trees of texts. Each call does nothing: its contract is the law.

ghost use Rattle.std.specs.Prelude.{◌≡◌, ◌≤◌, ◌*◌, ℕ, List, All, length, map, sum_by};
ghost use Rattle.std.specs.List.{AllZip};
ghost use Rattle.capl_lexer.specs.Reading.{IsReading};
ghost use Rattle.capl_lexer.specs.declared.token.Tok.{Tok};
ghost use Rattle.capl_lexer.specs.declared.token.Token.{Token};
ghost use Rattle.capl_grammar.specs.File.{IsSourceOf};
ghost use Rattle.capl_tree.specs.Weight.{weight};
ghost use Rattle.capl_tree.specs.declared.file.Program.{Program};
ghost use Rattle.dbc_reader.specs.declared.message.DbcMessage.{DbcMessage};
ghost use Rattle.capl_meaning.specs.Variable.{parts_of, variables_of};
ghost use Rattle.sound_programs.specs.Given.{IsReadable};
ghost use Rattle.sound_programs.specs.Small.{IsShortList};
ghost use Rattle.small_trees.specs.Tokens.{AreBytes, AreSmallToks, IsSmallText};

/// The tokens of a text of fewer than 2^32 bytes are small.
pub fn tokens_of_texts_are_small()
    ensures { (text : List ℕ) (tokens : List Token) → IsReading text tokens → AreBytes text →
        IsShortList text → AreSmallToks (map (λ token. token.tok) tokens) }
{}

/// A program is readable whose trees are spelled by small tokens, fewer than 2^32 in each file.
pub fn programs_of_small_texts_are_readable()
    ensures { (texts : List (List Tok)) (program : Program) → AllZip IsSourceOf texts program.files →
        All IsSmallText texts → IsReadable program }
{}

/// The weight of a program is at most eight times the number of its tokens.
pub fn programs_weigh_eight_times_their_tokens()
    ensures { (texts : List (List Tok)) (program : Program) → AllZip IsSourceOf texts program.files →
        weight program ≤ 8 * sum_by length texts }
{}

/// A program has as many files as texts, and no more parts and no more variables than tokens.
pub fn programs_declare_no_more_than_their_tokens()
    ensures files { (texts : List (List Tok)) (program : Program) → AllZip IsSourceOf texts program.files →
        length program.files ≡ length texts }
    ensures parts { (texts : List (List Tok)) (program : Program) → AllZip IsSourceOf texts program.files →
        length (parts_of program) ≤ sum_by length texts }
    ensures variables { (texts : List (List Tok)) (base : List DbcMessage) (program : Program) →
        AllZip IsSourceOf texts program.files → length (variables_of base program) ≤ sum_by length texts }
{}
