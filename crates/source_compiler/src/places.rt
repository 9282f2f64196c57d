// Where the tokens of files stand, which is known without the tokens.

ghost use Rattle.std.specs.Prelude.{◌≡◌, IfOk, List, map};
ghost use Rattle.capl_include.specs.declared.expanded.SourceFile.{SourceFile};
ghost use Rattle.check_types.specs.Lines.{line_in};
ghost use Rattle.source_compiler.specs.Source.{offence_blame};
ghost use Rattle.source_compiler.specs.Inside.{ArePlacesOf};
ghost use Rattle.input_refusals.specs.Agreement.{IsBlamedOrNoMemory};

use crate::rules::source_rule;
use capl_include::SourceFile;
use capl_meaning::Offence;
use input_refusals::{InputRefusal, blamed_place};
use std::alloc::Global;
use texts::{NoMemory, Text};

/// The names of files, and where their tokens stand.
#[derive(Debug, Drop)]
pub(crate) struct Places {
    /// The names of the files, in program order.
    pub(crate) names: Vec<Text>,
    /// The lines of the tokens of each file.
    pub(crate) lines: Vec<Vec<u32>>,
    /// Their columns.
    pub(crate) columns: Vec<Vec<u32>>,
}

/// The places of the tokens of files.
pub(crate) fn places_of(alloc: Global, files: &[SourceFile]) -> Result<Places, NoMemory>
    ensures { IfOk result (λ places. ArePlacesOf files.now places.names.items
        (map (λ row. row.items) places.lines.items) (map (λ row. row.items) places.columns.items)) }
{
    let mut names = Vec::new(alloc);
    let mut lines = Vec::new(alloc);
    let mut columns = Vec::new(alloc);
    for file in files {
        let (file_lines, file_columns) = places_in(alloc, file)?;
        names.push(file.name.copy()?)?;
        lines.push(file_lines)?;
        columns.push(file_columns)?;
    }
    Ok(Places {
        names,
        lines,
        columns,
    })
}

/// The lines of the tokens of a file, and their columns.
fn places_in(alloc: Global, file: &SourceFile) -> Result<(Vec<u32>, Vec<u32>), NoMemory>
    ensures { IfOk result (λ rows. (rows.0.items ≡ map (λ token. token.line) file.now.tokens)
        × (rows.1.items ≡ map (λ token. token.column) file.now.tokens)) }
{
    let tokens = file.tokens.as_slice();
    let mut lines = Vec::with_capacity(alloc, tokens.len())?;
    let mut columns = Vec::with_capacity(alloc, tokens.len())?;
    for token in tokens {
        lines.push(token.line)?;
        columns.push(token.column)?;
    }
    Ok((lines, columns))
}

/// The refusal that blames an offence, or that of want of memory.
pub(crate) fn blamed_offence(alloc: Global, places: &Places, offence: &Offence) -> InputRefusal
    ensures { (files : List SourceFile) → ArePlacesOf files places.now.names.items
        (map (λ row. row.items) places.now.lines.items) (map (λ row. row.items) places.now.columns.items) →
        IsBlamedOrNoMemory (offence_blame files offence.now) result }
{
    let rule = source_rule(offence.rule.number);
    let line = number_in(&places.lines, offence.file, offence.token);
    let column = number_in(&places.columns, offence.file, offence.token);
    match places.names.get(offence.file as usize) {
        Some(name) => blamed_place(alloc, name.bytes(), line, column, rule),
        None => blamed_place(alloc, b"", line, column, rule),
    }
}

/// The number of a token of a file, by those of the tokens of each file; 0 where there is no such token.
fn number_in(rows: &[Vec<u32>], file: u32, token: u32) -> u32
    ensures { result ≡ line_in (map (λ row. row.items) rows.now) file token }
{
    let file = file as usize;
    if file >= rows.len() {
        return 0;
    }
    let row = rows[file].as_slice();
    let token = token as usize;
    if token < row.len() { row[token] } else { 0 }
}
