//! Laws of the typed programs of sources. Each call does nothing: its contract is the law.

ghost use Rattle.std.specs.Prelude.{◌≡◌, ◌≢◌, ℕ, ◌≤◌, List, ◌++◌, AllPairs};
ghost use Rattle.dbc_reader.specs.declared.message.DbcMessage.{DbcMessage};
ghost use Rattle.write_format.specs.Line.{FormatText};
ghost use Rattle.capl_tree.specs.declared.expr.Expr.{Expr};
ghost use Rattle.capl_tree.specs.declared.file.Program.{Program};
ghost use Rattle.capl_tree.specs.declared.statement.Stmt.{Stmt};
ghost use Rattle.capl_tree.specs.Weight.{weight};
ghost use Rattle.typed_tree.specs.Size.{size};
ghost use Rattle.typed_tree.specs.declared.program.Typed.{Typed};
ghost use Rattle.typed_tree.specs.Sound.{IsSound};
ghost use Rattle.typed_tree.specs.SoundExpression.{IsSoundExpr};
ghost use Rattle.capl_meaning.specs.Sort.{sort_of};
ghost use Rattle.capl_meaning.specs.Store.{event_kinds, laid_kinds, timer_units};
ghost use Rattle.typed_laws.specs.Laid.{AreDistinct};
ghost use Rattle.typed_source.specs.Sound.{CanBeMade, HasTables, HaveElements, HaveUnits, IsOfNumber};
ghost use Rattle.capl_meaning.specs.Names.{Names, Scope, names_of};
ghost use Rattle.typed_laws.specs.Agreement.{AloneDoesAs, DoesAs, GivesAs, ProgramDoesAs, StandsAs};
ghost use Rattle.typed_source.specs.Expression.{expression_of, place_of};
ghost use Rattle.typed_source.specs.Program.{HasEach, HasNoOther, typed_program};
ghost use Rattle.typed_source.specs.Statement.{StandFrom, alone_of, formats_of, formats_of_alone, statement_of};

/// The typed tree of each part of a source does what the part does, whatever rules the part breaks, where
/// each function of the source stands in the order of functions: an expression gives the same number, a
/// place is the same place in cells, and a statement, or an expression that stands alone, does the same in
/// a program that has its formats from a number on.
pub fn trees_do_what_their_parts_do()
    ensures expressions { (scope : Scope) (order : List ℕ) (e : Expr) → HasEach scope.names order →
        GivesAs scope order e (expression_of scope order e) }
    ensures places { (scope : Scope) (order : List ℕ) (e : Expr) → HasEach scope.names order →
        StandsAs scope order e (place_of scope order e) }
    ensures alone { (scope : Scope) (order : List ℕ) (formats : List FormatText) (before : ℕ) (e : Expr) →
        HasEach scope.names order → StandFrom before (formats_of_alone scope e) formats →
        AloneDoesAs scope order formats e (alone_of scope order before e) }
    ensures statements { (scope : Scope) (order : List ℕ) (formats : List FormatText) (before : ℕ)
        (s : Stmt) → HasEach scope.names order → StandFrom before (formats_of scope s) formats →
        DoesAs scope order formats s (statement_of scope order before s) }
{}

/// The typed program of a source does what the source does, in each order that has the source's functions
/// and no others, whatever rules the source breaks: its tables are those of the source's names, its starts
/// make the first store, and its functions and event procedures do what those of the source do.
pub fn typed_programs_do_what_their_sources_do()
    ensures { (base : List DbcMessage) (program : Program) (order : List ℕ) (line : ℕ → ℕ → ℕ) →
        HasEach (names_of base program) order → HasNoOther (names_of base program) order →
        ProgramDoesAs base program (typed_program base program order line) }
{}

/// The typed tree of an expression that is a number is sound in the procedure of a number, in a typed
/// program whose tables have what the source's names need, where each number, compound assignment and call
/// in the expression can be made.
pub fn numbers_have_sound_trees()
    ensures { (typed : Typed) (number : ℕ) (scope : Scope) (order : List ℕ) (e : Expr) →
        HasTables scope.names typed → IsOfNumber (sort_of scope e) →
        CanBeMade scope order typed number e →
        IsSoundExpr typed number (expression_of scope order e) }
{}

/// The tables of a typed program have what the names of a source need, where no name is declared twice and
/// each array has an element; the timers of each source have the unit of seconds or milliseconds.
pub fn tables_have_what_names_need()
    ensures tables { (names : Names) (typed : Typed) → AreDistinct names.variables →
        typed.cells ≡ event_kinds ++ laid_kinds names → typed.timers ≡ timer_units names →
        HaveElements names → HaveUnits names → HasTables names typed }
    ensures units { (base : List DbcMessage) (program : Program) → HaveUnits (names_of base program) }
{}

/// The code of the typed program of a source has at most as many instructions as the source's weight, where
/// the order has each function once and no others, and the typed program is sound.
pub fn code_is_within_the_weight()
    ensures { (base : List DbcMessage) (program : Program) (order : List ℕ) (line : ℕ → ℕ → ℕ) →
        HasNoOther (names_of base program) order → AllPairs (λ one other. one ≢ other) order →
        IsSound (typed_program base program order line) →
        size (typed_program base program order line) ≤ weight program }
{}
