// The code of a program, from its files.

ghost use Rattle.std.specs.Prelude.{◌≡◌, ◌≤◌, ◌<◌, ◌-◌, ◌^◌, ◌⊎◌, All, List, length, map, slice_get};
ghost use Rattle.texts.specs.Rule.{source_rule};
ghost use Rattle.capl_include.specs.Answer.{token_count};
ghost use Rattle.capl_include.specs.Blame.{file_blame};
ghost use Rattle.capl_include.specs.Expansion.{file_limit};
ghost use Rattle.capl_include.specs.Text.{AreOfTexts, IsOfText};
ghost use Rattle.capl_include.specs.declared.expanded.SourceFile.{SourceFile};
ghost use Rattle.capl_lexer.specs.Reading.{token_limit};
ghost use Rattle.capl_tree.specs.Weight.{weight};
ghost use Rattle.check_names.specs.Few.{IsFew};
ghost use Rattle.check_names.specs.Names.{messages_of};
ghost use Rattle.check_types.specs.Accepted.{IsAccepted};
ghost use Rattle.sound_programs.specs.Given.{IsReadable};
ghost use Rattle.gen_stmt.specs.Cells.{cell_count};
ghost use Rattle.code_listing.specs.Program.{IsCodeOf};
ghost use Rattle.typed_tree.specs.Size.{size};
ghost use Rattle.typed_tree.specs.Sound.{IsSound};
ghost use Rattle.source_compiler.specs.Source.{IsProgramBlame, AreTreesOf, HasTree, IsFirstFile, IsOffenceBlame, IsParsed, IsScreened, IsSizeBlame, IsTokenBlame, IsTreeBlame, column_past, lines_of, most, wrong_blame};
ghost use Rattle.input_refusals.specs.Agreement.{IsBlamedOrNoMemory, Judges};
ghost use Rattle.source_compiler.specs.Compiled.{IsCompiled};
ghost use Rattle.source_compiler.specs.Inside.{ArePlacesOf};

use crate::compiled::Compiled;
use crate::places::{Places, blamed_offence, places_of};
use crate::rules::{NOT_SPELLED, TOO_DEEP, TOO_LARGE};
use bytecode::Verified;
use capl_include::SourceFile;
use capl_lexer::{Token, screen};
use capl_parser::{ParseRefusal, parse};
use capl_tree::{FileTree, Program, weight_of};
use check_types::{CheckRefusal, check};
use dbc_reader::Database;
use gen_stmt::{CompileRefusal, cells_of, compile_weighed};
use input_refusals::{InputRefusal, blamed_file, blamed_place};
use items::Items;
use small_trees::laws::{
    programs_declare_no_more_than_their_tokens, programs_of_small_texts_are_readable,
    programs_weigh_eight_times_their_tokens, tokens_of_texts_are_small,
};
use std::alloc::Global;
use texts::Text;
use typed_source::laws::code_is_within_the_weight;
use typed_tree::Typed;

/// The code of the program of these files, the last of which has this name, with the messages of a
/// database; the sizes of the program, and the names of its files.
pub(crate) fn code_of(
    alloc: Global,
    name: &Text,
    files: Items<SourceFile>,
    base: Option<&Database>,
) -> Result<Compiled, InputRefusal>
    requires few_files { length files ≤ file_limit }
    requires few { token_count files ≤ token_limit }
    requires texts { AreOfTexts files }
    ensures { Judges (IsCompiled (messages_of base.entry) files)
        (IsProgramBlame (messages_of base.entry) name.now files) result }
{
    let sources = files.as_slice();
    screen_files(alloc, sources)?;
    let program = parse_files(alloc, sources)?;
    let places = places_of(alloc, sources)?;
    // What is checked and typed can take the memory of the tokens.
    drop(files);
    tokens_of_texts_are_small();
    programs_of_small_texts_are_readable();
    programs_weigh_eight_times_their_tokens();
    programs_declare_no_more_than_their_tokens();
    let typed = check_program(alloc, name, &places, &program, base)?;
    code_is_within_the_weight();
    let weight = weight_of(&program);
    // The code can take the memory of the trees.
    drop(program);
    let code = compile_program(alloc, name, weight, &typed)?;
    Ok(Compiled {
        code,
        cells: cells_of(&typed),
        weight,
        files: Items::from_list(places.names),
    })
}

/// Blames the first token of the first file that has one which a program may not have.
fn screen_files(alloc: Global, files: &[SourceFile]) -> Result<(), InputRefusal>
    ensures { Judges (λ done. All IsScreened files.now)
        (λ blame. IsFirstFile IsScreened (IsTokenBlame blame) files.now) result }
{
    for file in files {
        screen_file(alloc, file)?;
    }
    Ok(())
}

/// Blames the first token of a file that a program may not have.
fn screen_file(alloc: Global, file: &SourceFile) -> Result<(), InputRefusal>
    ensures { Judges (λ done. IsScreened file.now) (λ blame. IsTokenBlame blame file.now) result }
{
    let tokens = file.tokens.as_slice();
    match screen(tokens) {
        Some((place, rule)) => {
            let token = &tokens[place];
            Err(blamed_place(alloc, file.name.bytes(), token.line, token.column, rule))
        }
        None => Ok(()),
    }
}

/// The trees of these files.
fn parse_files(alloc: Global, files: &[SourceFile]) -> Result<Program, InputRefusal>
    requires few { token_count files.now ≤ token_limit }
    requires texts { AreOfTexts files.now }
    ensures { Judges (AreTreesOf files.now)
        (λ blame. IsFirstFile IsParsed (IsTreeBlame blame) files.now) result }
{
    let mut trees = Vec::new(alloc);
    for file in files {
        let tree = parse_file(alloc, file)?;
        trees.push(tree)?;
    }
    Ok(Program {
        files: Items::from_list(trees),
    })
}

/// The tree of a file.
fn parse_file(alloc: Global, file: &SourceFile) -> Result<FileTree, InputRefusal>
    requires few { length file.now.tokens < 2 ^ 32 }
    requires text { IsOfText file.now.tokens }
    ensures { Judges (HasTree file.now) (λ blame. IsTreeBlame blame file.now) result }
{
    match parse(alloc, file.tokens.as_slice()) {
        Ok(tree) => Ok(tree),
        Err(ParseRefusal::Deep) => Err(blamed_file(alloc, &file.name, TOO_DEEP)),
        Err(ParseRefusal::NotSpelled { token }) => Err(blamed_wrong(alloc, file, token)),
        Err(ParseRefusal::NoMemory) => Err(InputRefusal::NoMemory),
    }
}

/// The refusal that blames the token of this number of a file, the first wrong one, or the place just past
/// the last token where there is none of this number; or the refusal of want of memory.
fn blamed_wrong(alloc: Global, file: &SourceFile, number: u32) -> InputRefusal
    requires { IsOfText file.now.tokens }
    ensures { IsBlamedOrNoMemory (wrong_blame file.now.name (slice_get file.now.tokens number)
        (slice_get file.now.tokens (length file.now.tokens - 1))) result }
{
    let name = file.name.bytes();
    let tokens = file.tokens.as_slice();
    match tokens.get(number as usize) {
        Some(wrong) => blamed_place(alloc, name, wrong.line, wrong.column, NOT_SPELLED),
        None => blamed_end(alloc, name, tokens),
    }
}

/// The refusal that blames the place just past the last token, or that of want of memory.
fn blamed_end(alloc: Global, name: &[u8], tokens: &[Token]) -> InputRefusal
    requires { IsOfText tokens.now }
    ensures { IsBlamedOrNoMemory
        (wrong_blame name.now None (slice_get tokens.now (length tokens.now - 1))) result }
{
    match tokens.get(tokens.len().saturating_sub(1)) {
        Some(last) => blamed_place(alloc, name, last.line, column_past(last), NOT_SPELLED),
        None => blamed_place(alloc, name, 1, 1, NOT_SPELLED),
    }
}

/// The column just past a token.
fn column_past(token: &Token) -> u32
    requires { column_past token.now < 2 ^ 32 }
    ensures { result ≡ column_past token.now }
{
    token.column + token.to.saturating_sub(token.from)
}

/// The typed program of files whose tokens stand at these places. The program is readable, not too heavy to
/// be sound, and declares few.
fn check_program(
    alloc: Global,
    name: &Text,
    places: &Places,
    program: &Program,
    base: Option<&Database>,
) -> Result<Typed, InputRefusal>
    requires readable { IsReadable program.now }
    requires light { weight program.now < 2 ^ 35 }
    requires few { IsFew program.now }
    ensures { (files : List SourceFile) → ArePlacesOf files places.now.names.items
        (map (λ row. row.items) places.now.lines.items) (map (λ row. row.items) places.now.columns.items) →
        Judges (IsAccepted (messages_of base.entry) program.now (lines_of files))
        (λ blame. IsOffenceBlame (messages_of base.entry) files program.now blame
        ⊎ IsSizeBlame (messages_of base.entry) name.now program.now blame) result }
{
    match check(alloc, program, &places.lines, base) {
        Ok(typed) => Ok(typed),
        Err(CheckRefusal::Offends(offence)) => Err(blamed_offence(alloc, places, &offence)),
        Err(CheckRefusal::Size) => Err(blamed_file(alloc, name, TOO_LARGE)),
        Err(CheckRefusal::NoMemory) => Err(InputRefusal::NoMemory),
    }
}

/// The code of a typed program, which has few enough cells, or the blame of the file of this name where the
/// program is too heavy.
fn compile_program(
    alloc: Global,
    name: &Text,
    weight: u64,
    typed: &Typed,
) -> Result<Verified, InputRefusal>
    requires sound { IsSound typed.now }
    requires bounded { weight ≤ most → size typed.now ≤ weight }
    requires few_cells { cell_count typed.now ≤ most }
    ensures { Judges (λ code. IsCodeOf typed.now code × (weight ≤ most))
        (λ blame. (most < weight) × (blame ≡ file_blame name.now (source_rule 29))) result }
{
    match compile_weighed(alloc, weight, typed) {
        Ok(code) => Ok(code),
        Err(CompileRefusal::Size) => Err(blamed_file(alloc, name, TOO_LARGE)),
        Err(CompileRefusal::NoMemory) => Err(InputRefusal::NoMemory),
    }
}
