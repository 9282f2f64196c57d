// The expansion of a file.

ghost use Rattle.std.specs.Prelude.{◌≡◌, ◌+◌, ◌<◌, ◌≤◌, ◌^◌, ◌∷◌, [], false, All, IfOk, IfErr, IsFalse, OnOk, IfSome, IsErrOf, length};
ghost use Rattle.capl_lexer.specs.Reading.{token_limit};
ghost use Rattle.capl_lexer.specs.declared.token.Tok.TheVariants as tok;
ghost use Rattle.texts.specs.Fault.{HasRisen, raised, raised_by};
ghost use Rattle.capl_include.specs.Expansion.{Went, file_limit, includes_of};
ghost use Rattle.capl_include.specs.Answer.{IsAnswer, IsOnly, HaveDifferentNames, token_count};
ghost use Rattle.capl_include.specs.Text.{AreOfTexts, IsOfText};
ghost use Rattle.capl_include.specs.Inside.Once.{GoesOnce, ReadsEach};
ghost use Rattle.capl_include.specs.Inside.Step.{has_met};
ghost use Rattle.capl_include.specs.Inside.Visit.{IsVisitAt, IsVisitRefusal, ReadAgrees, StepAgrees};

use crate::blames::{
    MISSING, NO_NAME, NO_TOKEN, TOO_LONG, TOO_MANY_FILES, TOO_MANY_TOKENS, blamed, blamed_at,
};
use crate::expanded::{Expanded, SourceFile};
use crate::names::{included_name, is_included_name};
use crate::progress::Progress;
use crate::refusal::ExpandRefusal;
use capl_lexer::{LexRefusal, TOKEN_LIMIT, Tok, Token, lex};
use items::Items;
use sim_outside::{FileRefusal, Files};
use std::alloc::Global;
use texts::Text;

/// The most bytes of a file.
const BYTE_LIMIT: usize = 1 << 20;

/// The file of this name and the files that it includes, in program order: a file is read and met, the
/// files that it names are visited in order where they were not met before, and then it is appended. No
/// file is read twice. Takes time and memory linear in the bytes that are read.
///
/// Blamed comes exactly where a rule is broken, and names the first place. In the visit of a file E29
/// comes first, for the file of `name`, where 32 files are met already; then E07 where the file is
/// missing, F02 where it has more than 1 MiB, E01 where no token begins, and E04 where the files met so
/// far have more than 300,000 tokens; then, include by include, E08 where the joined name has more than
/// 255 bytes or one outside 32 to 126, or the name itself is empty, and what the visit of the included
/// file brings. Failed comes only where a read failed, and NoMemory only where the system gives no memory.
pub fn expand<F: Files>(
    alloc: Global,
    files: &mut F,
    name: &Text,
) -> Result<Expanded, ExpandRefusal>
    // Where the contents are told, the answer is what they come to, and they come to nothing else.
    ensures told { IfSome (F.held files.old) (λ contents. IsAnswer contents name.now result) }
    ensures only { IfSome (F.held files.old) (λ contents. IsOnly contents name.now result) }
    // Each file is read once: their names differ, and there were as many reads as files.
    ensures once { IfOk result (λ expanded. HaveDifferentNames expanded.files) }
    ensures reads { IfOk result (λ expanded.
        F.reads files.new ≡ raised_by (length expanded.files) (F.reads files.old)) }
    ensures few { IfOk result (λ expanded. token_count expanded.files ≤ token_limit) }
    ensures few_files { IfOk result (λ expanded. length expanded.files ≤ file_limit) }
    // The tokens of each file are those of some text, also where the contents are not told.
    ensures texts { IfOk result (λ expanded. AreOfTexts expanded.files) }
    ensures rose { IsErrOf result ExpandRefusal.Failed → HasRisen (F.faults files.old) (F.faults files.new) }
    ensures faults_stay { F.faults files.old ≤ F.faults files.new }
    ensures contents_stay { F.held files.new ≡ F.held files.old }
{
    let mut progress = Progress::new(alloc);
    visit(alloc, files, name, name, &mut progress)?;
    Ok(progress.into_expanded())
}

/// Visits the file of this name: it is met, the files that it names are visited, and it is appended.
fn visit<F: Files>(
    alloc: Global,
    files: &mut F,
    root: &Text,
    name: &Text,
    progress: &mut Progress,
) -> Result<(), ExpandRefusal>
    requires within_limit { progress.old.count ≤ token_limit }
    requires not_met { has_met progress.old.met name.now ≡ false }
    ensures went { IfSome (F.held files.old) (λ contents.
        OnOk result (IsVisitAt contents root.now name.now progress.old (Went progress.new))) }
    ensures stopped { IfSome (F.held files.old) (λ contents.
        IfErr result (IsVisitRefusal contents root.now name.now progress.old)) }
    ensures within_limit { OnOk result (progress.new.count ≤ token_limit) }
    ensures once { OnOk result (GoesOnce progress.old progress.new) }
    ensures reads { OnOk result
        (ReadsEach 0 (F.reads files.old) (F.reads files.new) progress.old progress.new) }
    ensures counts { OnOk result
        (token_count progress.new.files + progress.old.count
        ≡ token_count progress.old.files + progress.new.count) }
    ensures texts { OnOk result (AreOfTexts progress.old.files → AreOfTexts progress.new.files) }
    ensures grows { OnOk result (length progress.old.met < length progress.new.met) }
    // As many files were appended as were met, which are no more than a program may have.
    ensures appends { OnOk result (length progress.new.files + length progress.old.met
        ≡ length progress.old.files + length progress.new.met) }
    ensures few_files { OnOk result (length progress.new.met ≤ file_limit) }
    ensures rose { IsErrOf result ExpandRefusal.Failed → HasRisen (F.faults files.old) (F.faults files.new) }
    ensures faults_stay { F.faults files.old ≤ F.faults files.new }
    ensures contents_stay { F.held files.new ≡ F.held files.old }
{
    if progress.is_full() {
        return Err(blamed(alloc, root, TOO_MANY_FILES));
    }
    let tokens = read_tokens(alloc, files, name, progress.count())?;
    progress.meet(alloc, name, tokens.len())?;
    for token in &tokens {
        // Nearly all tokens include nothing, and are passed by without what an include prepares.
        if is_include(token) {
            if let Some(next) = next_name(alloc, name, token, progress)? {
                visit(alloc, files, root, &next, progress)?;
            }
        }
    }
    progress.append(SourceFile {
        name: Text::make(alloc, name.bytes())?,
        tokens: Items::from_list(tokens),
    })?;
    Ok(())
}

/// The tokens of the file of this name, where so many tokens were met before.
fn read_tokens<F: Files>(
    alloc: Global,
    files: &mut F,
    name: &Text,
    count: usize,
) -> Result<Vec<Token>, ExpandRefusal>
    requires { count ≤ token_limit }
    ensures told { IfSome (F.held files.old) (λ contents. ReadAgrees contents name.now count result) }
    ensures few { IfOk result (λ tokens. count + length tokens.items ≤ token_limit) }
    ensures text { IfOk result (λ tokens. IsOfText tokens.items) }
    ensures reads { F.reads files.new ≡ raised (F.reads files.old) }
    ensures rose { IsErrOf result ExpandRefusal.Failed → HasRisen (F.faults files.old) (F.faults files.new) }
    ensures faults_stay { F.faults files.old ≤ F.faults files.new }
    ensures contents_stay { F.held files.new ≡ F.held files.old }
{
    let bytes = match files.read(alloc, name, BYTE_LIMIT) {
        Ok(bytes) => bytes,
        Err(FileRefusal::Missing) => return Err(blamed(alloc, name, MISSING)),
        Err(FileRefusal::TooLong) => return Err(blamed(alloc, name, TOO_LONG)),
        Err(FileRefusal::Failed) => return Err(ExpandRefusal::Failed),
        Err(FileRefusal::NoMemory) => return Err(ExpandRefusal::NoMemory),
    };
    are_bytes(&bytes);
    match lex(alloc, &bytes) {
        Ok(tokens) if tokens.len() <= TOKEN_LIMIT - count => Ok(tokens),
        Ok(_) | Err(LexRefusal::Many) => Err(blamed(alloc, name, TOO_MANY_TOKENS)),
        Err(LexRefusal::Bad { line, column }) => {
            Err(blamed_at(alloc, name, line, column, NO_TOKEN))
        }
        Err(LexRefusal::NoMemory) => Err(ExpandRefusal::NoMemory),
    }
}

/// Each number of a text is a byte. A call does nothing: its contract tells what the type says.
fn are_bytes(text: &[u8])
    ensures { All (λ byte. byte < 2 ^ 8) text.now }
{}

/// Whether a token includes a file.
#[inline(always)]
fn is_include(token: &Token) -> bool
    ensures { IsFalse result → includes_of (token.now ∷ []) ≡ [] }
{
    matches!(token.tok, Tok::Include(_))
}

/// The name of the file to visit for the token of a file, or None where it names none or one that was
/// met.
#[inline(never)]
fn next_name(
    alloc: Global,
    naming: &Text,
    token: &Token,
    progress: &Progress,
) -> Result<Option<Text>, ExpandRefusal>
    ensures told { StepAgrees naming.now token.now progress.now.met result }
    ensures not_met { IfOk result (λ found. IfSome found (λ name. has_met progress.now.met name ≡ false)) }
    ensures no_fault { IsErrOf result ExpandRefusal.Failed → ⊥ }
{
    match &token.tok {
        Tok::Include(own) => new_name(alloc, naming, token, own, progress),
        _ => Ok(None),
    }
}

/// The name of the file that the token of a file names by `own`, or None where it was met.
fn new_name(
    alloc: Global,
    naming: &Text,
    token: &Token,
    own: &Text,
    progress: &Progress,
) -> Result<Option<Text>, ExpandRefusal>
    requires { token.now.tok ≡ tok.Include own.now }
    ensures told { StepAgrees naming.now token.now progress.now.met result }
    ensures not_met { IfOk result (λ found. IfSome found (λ name. has_met progress.now.met name ≡ false)) }
    ensures no_fault { IsErrOf result ExpandRefusal.Failed → ⊥ }
{
    let name = included_name(alloc, naming.bytes(), own.bytes())?;
    if !is_included_name(own.bytes(), name.bytes()) {
        return Err(blamed_at(alloc, naming, token.line, token.column, NO_NAME));
    }
    if progress.has_met(name.bytes()) {
        return Ok(None);
    }
    Ok(Some(name))
}
