// The source of a node.

ghost use Rattle.std.specs.Prelude.{◌≡◌, ◌≤◌, IfOk, IfSome, IsErrOf, length};
ghost use Rattle.capl_include.specs.Answer.{token_count};
ghost use Rattle.capl_include.specs.Expansion.{IsExpansion, Stopped, file_limit};
ghost use Rattle.capl_include.specs.Text.{AreOfTexts};
ghost use Rattle.capl_lexer.specs.Reading.{token_limit};
ghost use Rattle.check_names.specs.Names.{messages_of};
ghost use Rattle.texts.specs.Fault.{HasRisen};
ghost use Rattle.source_compiler.specs.Source.{IsSourceBlame, FilesAt, most};
ghost use Rattle.input_refusals.specs.Agreement.{Agrees};
ghost use Rattle.source_compiler.specs.Compiled.{IsCoded, IsCompiledSource};

use crate::compiled::Compiled;
use crate::program::code_of;
use capl_include::{ExpandRefusal, SourceFile, expand};
use dbc_reader::Database;
use input_refusals::InputRefusal;
use items::Items;
use sim_outside::Files;
use std::alloc::Global;
use texts::Text;

/// The code of the source of this name, with the messages of a database; the sizes of its program, and the
/// names of its files.
pub fn read_source<F: Files>(
    alloc: Global,
    name: &Text,
    base: Option<&Database>,
    files: &mut F,
) -> Result<Compiled, InputRefusal>
    ensures told { IfSome (F.held files.old) (λ contents.
        Agrees (IsCompiledSource contents name.now (messages_of base.entry))
        (IsSourceBlame contents name.now (messages_of base.entry)) result) }
    // It was made of some program, which is the trees of its files, also where the contents are not told.
    ensures coded { IfOk result (IsCoded (messages_of base.entry)) }
    // The sizes are within the limits of a program, also where the contents are not told.
    ensures small { IfOk result (λ compiled. (compiled.cells ≤ most) × (compiled.weight ≤ most)) }
    ensures failed { IsErrOf result InputRefusal.Failed → HasRisen (F.faults files.old) (F.faults files.new) }
    ensures faults_stay { F.faults files.old ≤ F.faults files.new }
    ensures contents_stay { F.held files.new ≡ F.held files.old }
{
    let sources = read_files(alloc, name, files)?;
    let compiled = code_of(alloc, name, sources, base)?;
    Ok(compiled)
}

/// The files of the program of this name, in program order.
fn read_files<F: Files>(
    alloc: Global,
    name: &Text,
    files: &mut F,
) -> Result<Items<SourceFile>, InputRefusal>
    ensures told { IfSome (F.held files.old) (λ contents.
        Agrees (FilesAt contents name.now) (λ blame. IsExpansion contents name.now (Stopped blame)) result) }
    ensures few_files { IfOk result (λ sources. length sources ≤ file_limit) }
    ensures few { IfOk result (λ sources. token_count sources ≤ token_limit) }
    ensures texts { IfOk result (λ sources. AreOfTexts sources) }
    ensures failed { IsErrOf result InputRefusal.Failed → HasRisen (F.faults files.old) (F.faults files.new) }
    ensures faults_stay { F.faults files.old ≤ F.faults files.new }
    ensures contents_stay { F.held files.new ≡ F.held files.old }
{
    match expand(alloc, files, name) {
        Ok(expanded) => Ok(expanded.files),
        Err(ExpandRefusal::Blamed(blame)) => Err(InputRefusal::Blamed(blame)),
        Err(ExpandRefusal::Failed) => Err(InputRefusal::Failed),
        Err(ExpandRefusal::NoMemory) => Err(InputRefusal::NoMemory),
    }
}
