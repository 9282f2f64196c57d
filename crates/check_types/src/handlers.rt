// The event procedures of a typed program.

ghost use Rattle.std.specs.Prelude.{◌≡◌, ◌<◌, ◌^◌, ◌++◌, IfOk, OnOk, flat_map, length, map};
ghost use Rattle.std.specs.Option.{option_to_list};
ghost use Rattle.capl_meaning.specs.Statement.{handlers_of_part};
ghost use Rattle.check_names.specs.Part.{part_in, parts_in};
ghost use Rattle.check_types.specs.Lines.{line_in};
ghost use Rattle.check_types.specs.Handlers.{lines_of};
ghost use Rattle.type_alone.specs.Tables.{AreTables, order_of};
ghost use Rattle.typed_source.specs.Program.{formats_of_handlers, typed_handlers};

use crate::events::event_of;
use check_names::{Names, ProgramPart};
use check_sorts::Scope;
use items::Items;
use std::alloc::Global;
use texts::NoMemory;
use type_alone::StatementTables;
use type_statements::make_body;
use typed_tree::THandler;
use write_format::Format;

/// What the event procedures of a program are made by.
#[derive(Clone, Copy)]
pub(crate) struct Source<'s, 'p> {
    /// What the program declares.
    pub(crate) names: &'s Names<'p>,
    /// The lines of the tokens of each file.
    pub(crate) lines: &'s [Vec<u32>],
    /// What statements are made by.
    pub(crate) tables: &'s StatementTables<'s>,
}

/// The line of a token of a file, by the lines of the tokens of each file; 0 where there is no such
/// token.
fn line_in(lines: &[Vec<u32>], file: u32, token: u32) -> u32
    ensures { result ≡ line_in (map (λ row. row.items) lines.now) file token }
{
    let file = file as usize;
    if file >= lines.len() {
        return 0;
    }
    let row = lines[file].as_slice();
    let token = token as usize;
    if token < row.len() { row[token] } else { 0 }
}

/// The event procedure that a part of a program is, if it is one. Its formats are appended to those of the
/// program.
fn make_handler(
    alloc: Global,
    source: &Source,
    formats: &mut Vec<Format>,
    part: ProgramPart,
) -> Result<Option<THandler>, NoMemory>
    requires tables { AreTables source.now.names.now source.now.tables.now }
    requires room { length (formats.old.items
        ++ formats_of_handlers (handlers_of_part source.now.names.now (part_in part))) < 2 ^ 32 }
    ensures trees { IfOk result (λ handler. option_to_list handler ≡
        typed_handlers (order_of source.now.tables.now) (line_in (lines_of source.now))
        (length formats.old.items) (handlers_of_part source.now.names.now (part_in part.entry))) }
    ensures formats { OnOk result (formats.new.items ≡ formats.old.items
        ++ formats_of_handlers (handlers_of_part source.now.names.now (part_in part.entry))) }
{
    let ProgramPart::Procedure {
        number,
        file,
        procedure,
    } = part
    else {
        return Ok(None);
    };
    let names = source.names;
    let tables = source.tables;
    let layout = tables.trees.layout;
    let event = event_of(alloc, names, layout, &procedure.head)?;
    let Some(event) = event else {
        return Ok(None);
    };
    let scope = Scope::inside(names, number, file, &procedure.head);
    let body = make_body(
        alloc,
        scope,
        source.tables,
        formats,
        procedure.body.as_slice(),
    )?;
    let line = line_in(source.lines, file, procedure.at);
    Ok(Some(THandler {
        event,
        body,
        file,
        line,
    }))
}

/// Appends an event procedure, if there is one.
fn push_handler(handler: Option<THandler>, into: &mut Vec<THandler>) -> Result<(), NoMemory>
    ensures { OnOk result (into.new.items ≡ into.old.items ++ option_to_list handler) }
{
    if let Some(handler) = handler {
        into.push(handler)?;
    }
    Ok(())
}

/// The event procedures among parts of a program, in order. Their formats are appended to those of the
/// program.
pub(crate) fn make_handlers(
    alloc: Global,
    source: &Source,
    formats: &mut Vec<Format>,
    parts: &[ProgramPart],
) -> Result<Items<THandler>, NoMemory>
    requires tables { AreTables source.now.names.now source.now.tables.now }
    requires room { let handlers = flat_map (handlers_of_part source.now.names.now) (parts_in parts.now) in
        length (formats.old.items ++ formats_of_handlers handlers) < 2 ^ 32 }
    ensures trees { IfOk result (λ handlers. handlers ≡
        typed_handlers (order_of source.now.tables.now) (line_in (lines_of source.now))
        (length formats.old.items) (flat_map (handlers_of_part source.now.names.now) (parts_in parts.now))) }
    ensures formats { OnOk result (formats.new.items ≡ formats.old.items
        ++ formats_of_handlers (flat_map (handlers_of_part source.now.names.now) (parts_in parts.now))) }
{
    let mut handlers = Vec::new(alloc);
    for part in parts {
        let handler = make_handler(alloc, source, formats, *part)?;
        push_handler(handler, &mut handlers)?;
    }
    Ok(Items::from_list(handlers))
}
