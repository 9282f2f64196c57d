// The rules of declarations.

ghost use Rattle.std.specs.Prelude.{◌≡◌, OnOk, flat_map};
ghost use Rattle.capl_meaning.specs.DeclarationRules.{declaration_offences, declarator_offences};
ghost use Rattle.check_names.specs.First.{noted};
ghost use Rattle.check_statements.specs.Site.{IsReady, place_of};

use crate::form::{judge_size, note_const, note_form};
use crate::initialiser::judge_initialiser;
use crate::site::Site;
use capl_meaning::Offence;
use capl_tree::{Decl, DeclType, Declr};
use check_names::note_type;
use std::alloc::Global;
use texts::NoMemory;

/// Notes what a declared variable breaks.
#[tactic(auto, using(check_names::proofs::FirstLemmas::noted_append))]
fn judge_declarator(
    alloc: Global,
    site: &Site,
    what: &DeclType,
    item: &Declr,
    first: &mut Option<Offence>,
) -> Result<(), NoMemory>
    requires { IsReady site.now }
    ensures { OnOk result (first.new ≡
        noted first.old (declarator_offences (place_of site.now) what.now item.now)) }
{
    note_form(site, item.at, what, &item.size, first);
    note_const(site, item.at, what, &item.init, first);
    judge_size(alloc, site, item.at, &item.size, first)?;
    if let Some(init) = &item.init {
        judge_initialiser(alloc, site, item.at, what, &item.size, init.get(), first)?;
    }
    Ok(())
}

/// Notes what declared variables break.
fn judge_declarators(
    alloc: Global,
    site: &Site,
    what: &DeclType,
    items: &[Declr],
    first: &mut Option<Offence>,
) -> Result<(), NoMemory>
    requires { IsReady site.now }
    ensures { OnOk result (first.new ≡ noted first.old
        (flat_map (declarator_offences (place_of site.now) what.now) items.now)) }
{
    for item in items {
        judge_declarator(alloc, site, what, item, first)?;
    }
    Ok(())
}

/// Notes what a declaration breaks.
#[tactic(auto, using(check_names::proofs::FirstLemmas::noted_append, crate::proofs::TypeLemmas::type_at))]
pub(crate) fn judge_declaration(
    alloc: Global,
    site: &Site,
    decl: &Decl,
    first: &mut Option<Offence>,
) -> Result<(), NoMemory>
    requires { IsReady site.now }
    ensures { OnOk result (first.new ≡ noted first.old (declaration_offences (place_of site.now) decl.now)) }
{
    note_type(site.scope.names, site.scope.file, &decl.what, first);
    judge_declarators(alloc, site, &decl.what, decl.items.as_slice(), first)?;
    Ok(())
}

/// Notes what declarations outside of procedures break.
pub(crate) fn judge_declarations(
    alloc: Global,
    site: &Site,
    declarations: &[Decl],
    first: &mut Option<Offence>,
) -> Result<(), NoMemory>
    requires { IsReady site.now }
    ensures { OnOk result (first.new ≡ noted first.old
        (flat_map (declaration_offences (place_of site.now)) declarations.now)) }
{
    for decl in declarations {
        judge_declaration(alloc, site, decl, first)?;
    }
    Ok(())
}
