//! Laws of programs without offences. Each call does nothing: its contract is the law.

ghost use Rattle.std.specs.Prelude.{◌≡◌, ◌≢◌, ◌≤◌, ◌<◌, ◌^◌, ℕ, List, [], Some, false, length, slice_get, All, AllPairs};
ghost use Rattle.run_effects.specs.Effect.{IsUnit, KeepsSelectors, KeepsTimers};
ghost use Rattle.write_format.specs.Line.{IsCharArray, IsShort, char_arrays};
ghost use Rattle.message_cells.specs.Cells.{IsHeldStart};
ghost use Rattle.dbc_reader.specs.declared.message.DbcMessage.{DbcMessage};
ghost use Rattle.capl_tree.specs.declared.expr.Expr.{Expr};
ghost use Rattle.capl_tree.specs.declared.file.Program.{Program};
ghost use Rattle.capl_tree.specs.declared.statement.Stmt.{Stmt};
ghost use Rattle.capl_tree.specs.Weight.{weight};
ghost use Rattle.typed_tree.specs.declared.program.TFun.{TFun};
ghost use Rattle.typed_tree.specs.declared.program.Typed.{Typed};
ghost use Rattle.typed_tree.specs.Sound.{IsSound, IsSoundFunction, IsSoundHandler, all_keys, all_selectors, all_timers};
ghost use Rattle.typed_tree.specs.SoundStatement.{IsSoundStmt};
ghost use Rattle.capl_meaning.specs.Calls.{called_by_number, reaches};
ghost use Rattle.capl_meaning.specs.ExpressionRules.{integer_offences};
ghost use Rattle.capl_meaning.specs.Names.{Scope, names_of};
ghost use Rattle.capl_meaning.specs.Offences.{offences_of};
ghost use Rattle.capl_meaning.specs.Store.{cells_of_program};
ghost use Rattle.capl_meaning.specs.Sort.{sort_of};
ghost use Rattle.typed_source.specs.Program.{HasNoOther, IsGoodOrder, typed_program};
ghost use Rattle.typed_source.specs.Sound.{HasTables, IsOfNumber};
ghost use Rattle.typed_source.specs.Statement.{statement_of};
ghost use Rattle.sound_programs.specs.Given.{HasShortLists, HaveForms, IsReadable, StandsIn, in_procedure};

/// An expression of which an integer is needed is a number, where it breaks no rule and no variable is an
/// array of messages or timers.
pub fn needed_expressions_are_numbers()
    ensures { (scope : Scope) (e : Expr) → HaveForms scope.names → integer_offences scope e ≡ [] →
        IsOfNumber (sort_of scope e) }
{}

/// The typed tree of a statement of the body of a procedure is sound, where the statement stands in a
/// program, in which no variable is an array of messages or timers and whose tables have what its names
/// need.
pub fn statements_have_sound_trees()
    ensures { (scope : Scope) (order : List ℕ) (typed : Typed) (number before : ℕ) (statement : Stmt) →
        HasTables scope.names typed → HaveForms scope.names →
        StandsIn scope order typed number before statement →
        IsSoundStmt typed (in_procedure number scope) (statement_of scope order before statement) }
{}

/// In a program without offences no variable is an array of messages or timers, and the tables of its typed
/// program have what its names need; its timers have the unit of seconds or milliseconds.
pub fn programs_have_their_tables()
    ensures forms { (base : List DbcMessage) (program : Program) → offences_of base program ≡ [] →
        HaveForms (names_of base program) }
    ensures tables { (base : List DbcMessage) (program : Program) (order : List ℕ) (line : ℕ → ℕ → ℕ) →
        IsReadable program → offences_of base program ≡ [] →
        HasTables (names_of base program) (typed_program base program order line) }
    ensures units { (base : List DbcMessage) (program : Program) (order : List ℕ) (line : ℕ → ℕ → ℕ) →
        IsReadable program → offences_of base program ≡ [] →
        All IsUnit (typed_program base program order line).timers }
{}

/// The formats of the typed program of a readable program without offences read arrays that are there and of
/// characters, and are short.
pub fn programs_have_sound_formats()
    ensures arrays { (base : List DbcMessage) (program : Program) (order : List ℕ) (line : ℕ → ℕ → ℕ) →
        IsReadable program → offences_of base program ≡ [] →
        All (λ format. All (IsCharArray (typed_program base program order line).cells) (char_arrays format))
        (typed_program base program order line).formats }
    ensures short { (base : List DbcMessage) (program : Program) (order : List ℕ) (line : ℕ → ℕ → ℕ) →
        IsReadable program → offences_of base program ≡ [] →
        All IsShort (typed_program base program order line).formats }
{}

/// The event procedures of the typed program of a program without offences are for different events: no two
/// selectors of one rank overlap, and no two procedures are for one timer, which is there, or for one key.
pub fn programs_keep_events_apart()
    ensures selectors { (base : List DbcMessage) (program : Program) (order : List ℕ) (line : ℕ → ℕ → ℕ) →
        offences_of base program ≡ [] →
        KeepsSelectors (all_selectors (typed_program base program order line).handlers) }
    ensures timers { (base : List DbcMessage) (program : Program) (order : List ℕ) (line : ℕ → ℕ → ℕ) →
        IsReadable program → offences_of base program ≡ [] →
        KeepsTimers (all_timers (typed_program base program order line).handlers)
        (length (typed_program base program order line).timers) }
    ensures keys { (base : List DbcMessage) (program : Program) (order : List ℕ) (line : ℕ → ℕ → ℕ) →
        offences_of base program ≡ [] →
        AllPairs (λ a b. a ≢ b) (all_keys (typed_program base program order line).handlers) }
{}

/// The functions and event procedures of the typed program of a readable program without offences are sound,
/// in each order in which functions stand behind those that they call.
pub fn programs_have_sound_procedures()
    ensures functions { (base : List DbcMessage) (program : Program) (order : List ℕ) (line : ℕ → ℕ → ℕ) →
        IsReadable program → offences_of base program ≡ [] → IsGoodOrder (names_of base program) order →
        (number : ℕ) (function : TFun) →
        slice_get (typed_program base program order line).functions number ≡ Some function →
        IsSoundFunction (typed_program base program order line) number function }
    ensures handlers { (base : List DbcMessage) (program : Program) (order : List ℕ) (line : ℕ → ℕ → ℕ) →
        IsReadable program → offences_of base program ≡ [] → IsGoodOrder (names_of base program) order →
        All (IsSoundHandler (typed_program base program order line))
        (typed_program base program order line).handlers }
{}

/// The initial values of the typed program of a readable program without offences are held by the kinds of
/// their cells.
pub fn programs_have_held_starts()
    ensures { (base : List DbcMessage) (program : Program) (order : List ℕ) (line : ℕ → ℕ → ℕ) →
        IsReadable program → offences_of base program ≡ [] →
        All (IsHeldStart (typed_program base program order line).cells)
        (typed_program base program order line).starts }
{}

/// No function that a function of a readable program without offences calls reaches it by calls.
pub fn functions_do_not_reach_their_callers()
    ensures { (base : List DbcMessage) (program : Program) → IsReadable program →
        offences_of base program ≡ [] → (number : ℕ) →
        All (λ called. reaches (names_of base program) called number ≡ false)
        (called_by_number (names_of base program) number) }
{}

/// The typed program of a program whose weight is below 2^35 has fewer than 2^32 functions, event procedures
/// and formats, in each order in which only functions of the program stand, and none twice.
pub fn light_programs_have_short_lists()
    ensures { (base : List DbcMessage) (program : Program) (order : List ℕ) (line : ℕ → ℕ → ℕ) →
        HasNoOther (names_of base program) order → AllPairs (λ one other. one ≢ other) order →
        weight program < 2 ^ 35 → HasShortLists (typed_program base program order line) }
{}

/// The typed program of a readable program without offences, with at most 1,000,000 cells and a weight
/// below 2^35, is sound, in each order in which functions stand behind those that they call.
pub fn programs_without_offences_are_sound()
    ensures { (base : List DbcMessage) (program : Program) (order : List ℕ) (line : ℕ → ℕ → ℕ) →
        IsReadable program → offences_of base program ≡ [] → IsGoodOrder (names_of base program) order →
        cells_of_program base program ≤ 1000000 → weight program < 2 ^ 35 →
        IsSound (typed_program base program order line) }
{}
