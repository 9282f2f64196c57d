// What the names of a program mean.

ghost use Rattle.std.specs.Prelude.{◌≡◌, ◌==◌, ◌&&◌, ◌∷◌, ◌<◌, ◌^◌, List, IfOk, length, map, position, slice_get};
ghost use Rattle.std.specs.Option.{option_and_then, option_copied, option_map};
ghost use Rattle.std.specs.List.Sorted.{IsStrictlyIncreasing};
ghost use Rattle.std.specs.Str.{bytes_eq};
ghost use Rattle.dbc_reader.specs.declared.message.DbcMessage.{DbcMessage};
ghost use Rattle.capl_meaning.specs.Names.{Scope, is_local, means, names_of};
ghost use Rattle.capl_meaning.specs.Variable.{message_named, parts_of};
ghost use Rattle.capl_tree.specs.declared.file.Program.{Program};
ghost use Rattle.check_names.specs.Few.{IsFew};
ghost use Rattle.check_names.specs.First.{IsFirstOf};
ghost use Rattle.check_names.specs.Function.{functions_in};
ghost use Rattle.check_names.specs.Named.{named_offences};
ghost use Rattle.check_names.specs.Names.{messages_of};
ghost use Rattle.check_names.specs.Part.{parts_in};
ghost use Rattle.check_names.specs.Variable.{variable_in, variables_in};

use crate::function::{DeclaredFunction, called_functions, declared_functions};
use crate::head::note_parts;
use crate::inner::note_inner_names;
use crate::part::{ProgramPart, program_parts};
use crate::purposes::note_purposes;
use crate::repeats::note_outer_names;
use crate::scope::{are_in_order, first_before, number_at, tables_of};
use crate::seed::Seed;
use crate::table::NameTable;
use crate::variable::{Declared, declared_variables};
use capl_meaning::Offence;
use capl_tree::Program;
use dbc_reader::{Database, DbcMessage};
use std::alloc::Global;
use std::marker::Model;
use texts::NoMemory;

/// What a program declares, with tables of the names. Contracts see it as the messages of its
/// database, its variables and its functions, both in program order.
#[derive(Drop)]
pub struct Names<'p> {
    base: Option<&'p Database>,
    variables: Vec<Declared<'p>>,
    functions: Vec<DeclaredFunction<'p>>,
    seed: Seed,
    tables: Vec<NameTable<'p>>,
    in_order: bool,
    called: NameTable<'p>,
}

impl<'p> Model for Names<'p> {
    ghost use Rattle.std.specs.Prelude.{◌≡◌, ◌∷◌, ◌<◌, ◌^◌, length, map, true};
    ghost use Rattle.std.specs.List.Sorted.{IsStrictlyIncreasing};
    ghost use Rattle.std.specs.Coded.{codes};
    ghost use Rattle.capl_tree.specs.contracts.expr.Expr as expr;
    ghost use Rattle.capl_tree.specs.contracts.expr.Field as field;
    ghost use Rattle.capl_tree.specs.contracts.statement.Stmt as stmt;
    ghost use Rattle.capl_meaning.specs.Names.{Names};
    ghost use Rattle.check_names.specs.Function.{functions_in};
    ghost use Rattle.check_names.specs.Inside.Table.{AreInOrder, AreTables, IsCalled};
    ghost use Rattle.check_names.specs.Names.{messages_of};
    ghost use Rattle.check_names.specs.Variable.{variables_in};

    ghost Value = { Names };

    ghost coded = { Prim.hlevel (codes, expr.the_row.coded, field.the_row.coded, stmt.the_row.coded) };

    ghost view = { λ names. record {
      base = messages_of names.base;
      variables = variables_in (messages_of names.base) names.variables.items;
      functions = functions_in names.functions.items;
    } };

    ghost invariant = { λ names.
        AreTables names.tables.items (variables_in (messages_of names.base) names.variables.items)
        × (IsCalled names.called (functions_in names.functions.items)
        × ((names.in_order ≡ true → AreInOrder (variables_in (messages_of names.base) names.variables.items))
        × ((length names.variables.items < 2 ^ 32)
        × IsStrictlyIncreasing (0 ∷ map (λ f. f.number) (functions_in names.functions.items))))) };
}

/// What the names of a program mean, and the first of what they break in it.
#[derive(Drop)]
pub struct Named<'p> {
    /// What they mean.
    pub names: Names<'p>,
    /// The first of what they break: globals, functions, parameters and locals that are declared twice,
    /// procedures for the same, the heads of procedures, and the types of declarations. None where they
    /// break nothing.
    pub first: Option<Offence>,
}

impl<'p> Names<'p> {
    /// What a program declares, with the first of what its names break. Takes time n log n and memory
    /// linear in the program, but for names of one hash.
    pub fn build(
        alloc: Global,
        program: &'p Program,
        base: Option<&'p Database>,
    ) -> Result<Named<'p>, NoMemory>
        requires { IsFew program.now }
        ensures names { IfOk result (λ named.
            named.names ≡ names_of (messages_of base.entry) program.now) }
        ensures first { IfOk result (λ named.
            IsFirstOf named.first (named_offences (messages_of base.entry) program.now)) }
    {
        let parts = program_parts(alloc, program)?;
        let names = Names::of_parts(alloc, parts.as_slice(), base)?;
        let first = names.first_of(alloc, parts.as_slice())?;
        Ok(Named { names, first })
    }

    /// The number of the first parameter or local of this name in the procedure of this number whose
    /// declared name stands before the token, or None where there is none. Takes time linear in the
    /// name in the trees of a source, but for names of one hash; where in a procedure of the tree a
    /// name stands before that of an earlier variable, it may look at all variables.
    pub fn local(&self, procedure: u32, name: &[u8], token: u32) -> Option<u32>
        ensures { result ≡ position (is_local procedure name.now token) self.now.variables }
    {
        if procedure == 0 {
            return None;
        }
        let number = number_at(self.tables.as_slice(), procedure, name)?;
        let variable = self.variables.get(number as usize)?;
        if variable.token() < token {
            return Some(number);
        }
        if self.in_order {
            return None;
        }
        first_before(self.variables.as_slice(), procedure, name, token)
    }

    /// The number of the first global of this name, or None where there is none.
    pub fn global(&self, name: &[u8]) -> Option<u32>
        ensures { result ≡ position (λ v. v.owner == 0 && bytes_eq name.now v.name) self.now.variables }
    {
        number_at(self.tables.as_slice(), 0, name)
    }

    /// The number of the first variable of this name in the procedure of this number, or outside of
    /// procedures where it is 0; None where there is none.
    pub fn first_named(&self, procedure: u32, name: &[u8]) -> Option<u32>
        ensures { result ≡ position (λ v. v.owner == procedure && bytes_eq name.now v.name)
            self.now.variables }
    {
        number_at(self.tables.as_slice(), procedure, name)
    }

    /// The number of the variable that a name means at a token of a procedure or, where the number of
    /// the procedure is 0, outside of procedures; None where it means none.
    pub fn means(&self, procedure: u32, name: &[u8], token: u32) -> Option<u32>
        ensures { (s : Scope) → s.names ≡ self.now → s.owner ≡ procedure →
            option_and_then (slice_get self.now.variables) result ≡ means s name.now token }
    {
        match self.local(procedure, name, token) {
            Some(number) => Some(number),
            None => self.global(name),
        }
    }

    /// All variables, in program order of their declarations.
    pub fn variables(&self) -> &[Declared<'p>]
        ensures { variables_in self.now.base result.now ≡ self.now.variables }
    {
        self.variables.as_slice()
    }

    /// How many variables there are.
    pub fn variable_count(&self) -> u32
        ensures { result ≡ length self.now.variables }
    {
        self.variables.as_slice().len() as u32
    }

    /// The variables are fewer than 2^32. The call does nothing: its contract is the fact.
    pub fn variables_are_few(&self)
        ensures { length self.now.variables < 2 ^ 32 }
    {
        let _ = &self.variables;
    }

    /// All functions, in program order.
    pub fn functions(&self) -> &[DeclaredFunction<'p>]
        ensures { functions_in result.now ≡ self.now.functions }
    {
        self.functions.as_slice()
    }

    /// The numbers of the functions' procedures rise from 1 on. The call does nothing: its contract is the
    /// fact.
    pub fn functions_rise(&self)
        ensures { IsStrictlyIncreasing (0 ∷ map (λ f. f.number) self.now.functions) }
    {
        let _ = &self.functions;
    }

    /// The number among the functions of the first one of this name, or None where there is none.
    pub fn function(&self, name: &[u8]) -> Option<u32>
        ensures { result ≡ position (λ f. bytes_eq name.now f.name) self.now.functions }
    {
        self.called.number(name)
    }

    /// The message of this name in the database, or None where there is none.
    pub fn message(&self, name: &[u8]) -> Option<&'p DbcMessage>
        ensures { option_copied result ≡ message_named self.now.base name.now }
    {
        self.base?.message_by_name(name)
    }

    /// What a program of these parts declares.
    fn of_parts(
        alloc: Global,
        parts: &[ProgramPart<'p>],
        base: Option<&'p Database>,
    ) -> Result<Names<'p>, NoMemory>
        requires { (program : Program) × (parts_in parts.now ≡ parts_of program) × IsFew program }
        ensures { (program : Program) → parts_in parts.now ≡ parts_of program →
            IfOk result (λ names. names ≡ names_of (messages_of base.entry) program) }
    {
        let variables = declared_variables(alloc, parts)?;
        let functions = declared_functions(alloc, parts)?;
        let seed = Seed::of(variables.as_slice(), functions.as_slice());
        let tables = tables_of(alloc, seed, variables.as_slice())?;
        let in_order = are_in_order(tables.as_slice(), variables.as_slice());
        let called = called_functions(alloc, seed, functions.as_slice())?;
        Ok(Names {
            base,
            variables,
            functions,
            seed,
            tables,
            in_order,
            called,
        })
    }

    /// The first of what names break in a program of these parts.
    fn first_of(&self, alloc: Global, parts: &[ProgramPart]) -> Result<Option<Offence>, NoMemory>
        ensures { (base : List DbcMessage) (program : Program) → self.now ≡ names_of base program →
            parts_in parts.now ≡ parts_of program →
            IfOk result (λ first. IsFirstOf first (named_offences base program)) }
    {
        let seed = self.seed;
        let mut first = None;
        note_outer_names(alloc, seed, parts, &mut first)?;
        note_purposes(alloc, self, seed, parts, &mut first)?;
        note_parts(alloc, self, parts, &mut first)?;
        note_inner_names(self, &mut first);
        Ok(first)
    }
}
