//! Laws of agreement. Each call does nothing: its contract is the law.

ghost use Rattle.std.specs.Prelude.{◌≡◌, ℕ, List, [], ◌∷◌, ◌++◌, false, flat_map, length, map, slice_get, Option, Some, None, Bool, ℤ, pos};
ghost use Rattle.int_kinds.specs.Kind.{join};
ghost use Rattle.int_kinds.specs.declared.kinds.Kind.{Kind};
ghost use Rattle.int_kinds.specs.declared.kinds.Kind.TheVariants.{Long};
ghost use Rattle.int_kinds.specs.declared.operators.BinOp.{BinOp};
ghost use Rattle.texts.specs.declared.text.Text.{Text};
ghost use Rattle.dbc_reader.specs.declared.message.DbcMessage.{DbcMessage};
ghost use Rattle.write_format.specs.Line.{FormatText};
ghost use Rattle.message_cells.specs.Message.{message_of, with_message as with_message_at};
ghost use Rattle.capl_tree.specs.declared.expr.Expr.{Expr};
ghost use Rattle.capl_tree.specs.declared.expr.Expr.TheVariants as expr;
ghost use Rattle.capl_tree.specs.declared.expr.Field.{Field};
ghost use Rattle.capl_tree.specs.declared.file.Program.{Program};
ghost use Rattle.capl_tree.specs.Forms as tree;
ghost use Rattle.typed_tree.specs.declared.expression.TExpr.{TExpr};
ghost use Rattle.typed_tree.specs.declared.expression.TExpr.TheVariants.{Const};
ghost use Rattle.typed_tree.specs.declared.program.THandler.{THandler};
ghost use Rattle.typed_tree.specs.declared.program.Typed.{Typed};
ghost use Rattle.typed_tree.specs.declared.statement.TStmt.TheVariants as typed_stmt;
ghost use Rattle.typed_tree.specs.Forms.{Binary};
ghost use Rattle.typed_tree.specs.Memory as cells;
ghost use Rattle.typed_tree.specs.Program as typed_procedure;
ghost use Rattle.capl_meaning.specs.declared.builtin.Builtin.{Builtin};
ghost use Rattle.capl_meaning.specs.declared.builtin.Builtin.TheVariants as builtin;
ghost use Rattle.capl_meaning.specs.Variable.{Message, MessageType, Variable, variables_of};
ghost use Rattle.capl_meaning.specs.Names.{Names, OfLanguage, Scope, Unknown, callee, means, names_of};
ghost use Rattle.capl_meaning.specs.Format.{quoted_text};
ghost use Rattle.capl_meaning.specs.Message.{Held, array_in, is_number_place, message_in};
ghost use Rattle.capl_meaning.specs.Sort.{kind_in, sort_of};
ghost use Rattle.capl_meaning.specs.Constant.{operands_kind};
ghost use Rattle.capl_meaning.specs.Store.{Store, This, event_cells, event_kinds, variable_key, laid_kinds, lay, with_message};
ghost use Rattle.capl_meaning.specs.Expression.{timer_in};
ghost use Rattle.capl_meaning.specs.Expression as source;
ghost use Rattle.capl_meaning.specs.Initial.{first_store};
ghost use Rattle.capl_meaning.specs.Offences.{offences_of};
ghost use Rattle.capl_meaning.specs.Statement.{Handler, ending_of, handlers_in, fitting_pieces};
ghost use Rattle.capl_meaning.specs.Inside.Expression.{spot_of_name};
ghost use Rattle.typed_laws.specs.Laid.{AreDistinct, HasForm, IsHeld, IsOpen, IsReal, laid_memory, laid_spot, message_slot, slot};
ghost use Rattle.typed_laws.specs.Agreement.{AloneDoesAs, GivesAs, GivesZero, ProgramDoesAs, laid_ending};
ghost use Rattle.typed_laws.specs.Seen.{SameSeen};
ghost use Rattle.typed_laws.specs.Starts.{first_cells_of};

/// Where a typed program does what a source does in which no name is declared twice, each event procedure
/// ends, from each memory, `this`, moment and number of turns, after the measurement has ended or not, in
/// the cells and active timers that the source's memory is laid out in, with the same turns taken,
/// effects in order and outcome.
pub fn event_procedures_end_as_in_the_source()
    ensures { (base : List DbcMessage) (program : Program) (typed_program : Typed) →
        ProgramDoesAs base program typed_program → AreDistinct (variables_of base program) →
        (i : ℕ) (handler : Handler) (typed_handler : THandler) →
        slice_get (handlers_in base program) i ≡ Some handler →
        slice_get typed_program.handlers i ≡ Some typed_handler →
        (this : This) (closed : Bool) (moment turns : ℕ) (memory : source.Memory) →
        typed_procedure.ending_of (record { typed = typed_program; closed = closed; moment = moment })
        typed_handler turns (laid_memory (names_of base program) this memory) ≡
        laid_ending (names_of base program) this (ending_of handler this closed moment turns memory) }
{}

/// How an event procedure ends depends on `this` only as far as the procedure sees it: on the frame where
/// it is for frames, on the key where it is for keys, and else on neither. Any 15 cells are those of an
/// event.
pub fn what_is_not_seen_changes_nothing()
    ensures endings { (handler : Handler) (one other : This) → SameSeen handler.scope.this one other →
        (closed : Bool) (moment turns : ℕ) (memory : source.Memory) →
        ending_of handler one closed moment turns memory ≡
        ending_of handler other closed moment turns memory }
    ensures any_cells { (first : List ℤ) → length first ≡ 15 → (this : This) × (event_cells this ≡ first) }
{}

/// In a program without offences no procedure has two variables of one name, and there are no two globals
/// of one.
pub fn accepted_programs_declare_no_name_twice()
    ensures { (base : List DbcMessage) (program : Program) → offences_of base program ≡ [] →
        AreDistinct (variables_of base program) }
{}

/// Reading and storing at a place in the cells that a store is laid out in is reading and storing at the
/// place itself, and copying a message there is copying it in the store. The first store is laid out
/// variable by variable.
pub fn cells_hold_the_store()
    ensures reads { (names : Names) → AreDistinct names.variables → (this : This) (s : Store)
        (spot : source.Spot) → IsReal names spot →
        cells.read (laid_spot names spot) (laid_memory names this (record { store = s; active = [] })).cells ≡
        source.read this spot s }
    ensures stores { (names : Names) → AreDistinct names.variables → (this : This) (s : Store)
        (spot : source.Spot) (n : ℤ) → IsReal names spot → IsOpen spot →
        cells.write (event_kinds ++ laid_kinds names) (laid_spot names spot) n
        (laid_memory names this (record { store = s; active = [] })).cells ≡
        (laid_memory names this (record { store = source.write spot n s; active = [] })).cells }
    ensures copies { (names : Names) → AreDistinct names.variables → (this : This) (s : Store)
        (v : Variable) (type_ : MessageType) (from : Held) →
        HasForm names v (Message type_) → IsHeld names from →
        with_message_at (slot names (variable_key v)) (message_of (message_slot names from)
        (laid_memory names this (record { store = s; active = [] })).cells)
        (laid_memory names this (record { store = s; active = [] })).cells ≡
        (laid_memory names this (record {
          store = with_message (variable_key v) (source.held_message this s from) s;
          active = [];
        })).cells }
    ensures first { (names : Names) → AreDistinct names.variables →
        lay names (first_store names) ≡ flat_map (first_cells_of names) names.variables }
{}

/// What stands where a number is needed and breaks a rule has a tree that does the same.
pub fn broken_expressions_have_trees()
    ensures no_number { (scope : Scope) (order : List ℕ) (name : Text) (at : ℕ) (v : Variable) →
        means scope name at ≡ Some v → spot_of_name (means scope name at) ≡ source.Nowhere →
        GivesAs scope order (expr.Name name at) (Const (pos 0)) }
    ensures no_array { (scope : Scope) (order : List ℕ) (base index : Expr) (at : ℕ) →
        array_in scope base ≡ None → GivesAs scope order (tree.Index base index at) (Const (pos 0)) }
    ensures no_message { (scope : Scope) (order : List ℕ) (base : Expr) (field : Field) (at : ℕ) →
        message_in scope base ≡ None → GivesAs scope order (tree.Member base field at) (Const (pos 0)) }
    ensures no_place { (scope : Scope) (order : List ℕ) (left right : Expr) (at : ℕ) (t : TExpr) →
        is_number_place scope left ≡ false → GivesAs scope order right t →
        GivesAs scope order (tree.Assign None left right at) t }
    ensures no_place_with_operator { (scope : Scope) (order : List ℕ) (op : BinOp)
        (left right : Expr) (at : ℕ) (t : TExpr) →
        is_number_place scope left ≡ false → GivesAs scope order right t →
        GivesAs scope order (tree.Assign (Some op) left right at)
        (Binary op (operands_kind scope op left right) (Const (pos 0)) t) }
    ensures no_place_before { (scope : Scope) (order : List ℕ) (up : Bool) (inner : Expr) (at : ℕ) →
        is_number_place scope inner ≡ false → GivesAs scope order (tree.Post up inner at) (Const (pos 0)) }
    ensures no_function { (scope : Scope) (order : List ℕ) (name : Text) (args : List Expr) (at : ℕ) →
        callee scope.names name ≡ Unknown → GivesAs scope order (expr.Call name args at) (Const (pos 0)) }
    ensures no_value { (scope : Scope) (order : List ℕ) (name : Text) (args : List Expr)
        (at : ℕ) (found : Builtin) →
        callee scope.names name ≡ OfLanguage found → GivesZero scope found args →
        GivesAs scope order (expr.Call name args at) (Const (pos 0)) }
{}

/// What stands alone and breaks a rule does nothing, and so does its tree.
pub fn broken_statements_have_trees()
    ensures no_message { (scope : Scope) (order : List ℕ) (formats : List FormatText) (name : Text)
        (message : Expr) (at : ℕ) →
        callee scope.names name ≡ OfLanguage builtin.Output → message_in scope message ≡ None →
        AloneDoesAs scope order formats (expr.Call name (message ∷ []) at) typed_stmt.Empty }
    ensures no_format { (scope : Scope) (order : List ℕ) (formats : List FormatText) (name : Text)
        (format : Expr) (arguments : List Expr) (at : ℕ) →
        callee scope.names name ≡ OfLanguage builtin.Write →
        fitting_pieces (map (sort_of scope) arguments) (quoted_text format) ≡ None →
        AloneDoesAs scope order formats (expr.Call name (format ∷ arguments) at) typed_stmt.Empty }
    ensures no_timer { (scope : Scope) (order : List ℕ) (formats : List FormatText) (name : Text)
        (timer duration : Expr) (at : ℕ) →
        callee scope.names name ≡ OfLanguage builtin.SetTimer → timer_in scope timer ≡ None →
        AloneDoesAs scope order formats (expr.Call name (timer ∷ duration ∷ []) at) typed_stmt.Empty }
    ensures no_timer_to_cancel { (scope : Scope) (order : List ℕ) (formats : List FormatText) (name : Text)
        (timer : Expr) (at : ℕ) →
        callee scope.names name ≡ OfLanguage builtin.CancelTimer → timer_in scope timer ≡ None →
        AloneDoesAs scope order formats (expr.Call name (timer ∷ []) at) typed_stmt.Empty }
{}
