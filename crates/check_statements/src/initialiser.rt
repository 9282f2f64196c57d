// The rules of initialisers.

ghost use Rattle.std.specs.Prelude.{◌≡◌, OnOk, flat_map, length};
ghost use Rattle.capl_meaning.specs.DeclarationRules.{array_item_rules, initialiser_offences, is_above, item_offences, many_rules, message_item_rules, one_for_array, one_for_number, one_rules};
ghost use Rattle.capl_meaning.specs.Message.{signals_of_type};
ghost use Rattle.capl_meaning.specs.Sort.{sort_of};
ghost use Rattle.capl_meaning.specs.Format.{quoted_text};
ghost use Rattle.capl_tree.specs.Place.{expression_place};
ghost use Rattle.capl_meaning.specs.Constant.{length_at};
ghost use Rattle.capl_meaning.specs.Variable.{form_of};
ghost use Rattle.check_names.specs.First.{noted};
ghost use Rattle.check_sorts.specs.Form.{signals_in};
ghost use Rattle.check_statements.specs.Site.{IsReady, place_of};

use crate::constant::note_constant_needed;
use crate::item::{Braces, judge_array_item, judge_item, judge_message_item};
use crate::site::Site;
use capl_meaning::{Offence, Sort};
use capl_tree::{DeclType, Expr, Init, Item};
use check_expressions::{judge, note_broken};
use check_sorts::{DeclaredSignals, text_in};
use int_kinds::Kind;
use items::Boxed;
use std::alloc::Global;
use texts::NoMemory;

/// Whether there are more than there may be, where it is known how many may.
fn is_above(most: Option<u32>, n: usize) -> bool
    ensures { result ≡ is_above most n }
{
    match most {
        None => false,
        Some(most) => (most as usize) < n,
    }
}

/// Notes one value for an array with a size that is no text of characters, or is too long for it.
fn note_one_for_array(
    site: &Site,
    token: u32,
    kind: Kind,
    size: &Expr,
    e: &Expr,
    first: &mut Option<Offence>,
)
    requires { IsReady site.now }
    ensures { first.new ≡ noted first.old (one_for_array (place_of site.now) (expression_place e.now) kind
        (length_at (place_of site.now) token size.now) (quoted_text e.now)) }
{
    let elements = site.constants.length_at(site.scope, token, size);
    let broken = match (kind, text_in(e)) {
        (Kind::Char, Some(text)) => is_above(elements, text.len()),
        _ => true,
    };
    note_broken(site.scope, broken, e.place(), 27, first);
}

/// Notes one value for a number that is a text, or is no constant.
fn note_one_for_number(site: &Site, token: u32, e: &Expr, sort: Sort, first: &mut Option<Offence>)
    requires ready { IsReady site.now }
    requires sort { sort ≡ sort_of (place_of site.now) e.now }
    ensures { first.new ≡
        noted first.old (one_for_number (place_of site.now) token e.now (quoted_text e.now)) }
{
    match text_in(e) {
        Some(_) => note_broken(site.scope, true, e.place(), 27, first),
        None => note_constant_needed(site, token, e, sort, first),
    }
}

/// Notes what one value for a variable that is declared at a token breaks.
fn note_one(
    site: &Site,
    token: u32,
    what: &DeclType,
    size: &Option<Boxed<Expr>>,
    e: &Expr,
    sort: Sort,
    first: &mut Option<Offence>,
)
    requires ready { IsReady site.now }
    requires sort { sort ≡ sort_of (place_of site.now) e.now }
    ensures { first.new ≡ noted first.old (one_rules (place_of site.now) token
        (form_of site.now.scope.names.now.base what.now size.now) e.now) }
{
    match (what, size) {
        (DeclType::Number { .. }, None) => note_one_for_number(site, token, e, sort, first),
        (DeclType::Number { kind, .. }, Some(size)) => {
            note_one_for_array(site, token, *kind, size.get(), e, first);
        }
        (_, Some(_)) => {}
        (_, None) => note_broken(site.scope, true, e.place(), 27, first),
    }
}

/// Notes what items for an array break, each by itself.
fn judge_array_items(
    alloc: Global,
    site: &Site,
    braces: Braces,
    items: &[Item],
    first: &mut Option<Offence>,
) -> Result<(), NoMemory>
    requires { IsReady site.now }
    ensures { OnOk result (first.new ≡ noted first.old
        (flat_map (array_item_rules (place_of site.now) braces.token braces.at) items.now)) }
{
    for item in items {
        judge_array_item(alloc, site, braces, item, first)?;
    }
    Ok(())
}

/// Notes what items for a message with these signals break.
fn judge_message_items(
    alloc: Global,
    site: &Site,
    braces: Braces,
    signals: DeclaredSignals,
    items: &[Item],
    first: &mut Option<Offence>,
) -> Result<(), NoMemory>
    requires { IsReady site.now }
    ensures { OnOk result (first.new ≡ noted first.old
        (flat_map (message_item_rules (place_of site.now) braces.token braces.at
        (signals_in signals.entry)) items.now)) }
{
    for item in items {
        judge_message_item(alloc, site, braces, signals, item, first)?;
    }
    Ok(())
}

/// Notes what the expressions of items break by themselves.
fn judge_items(
    alloc: Global,
    site: &Site,
    items: &[Item],
    first: &mut Option<Offence>,
) -> Result<(), NoMemory>
    requires { IsReady site.now }
    ensures { OnOk result (first.new ≡
        noted first.old (flat_map (item_offences (place_of site.now)) items.now)) }
{
    for item in items {
        judge_item(alloc, site, item, first)?;
    }
    Ok(())
}

/// Notes what items between braces for a variable of a type, with or without a size, break.
#[tactic(auto, using(check_names::proofs::FirstLemmas::noted_append))]
fn judge_many(
    alloc: Global,
    site: &Site,
    braces: Braces,
    what: &DeclType,
    size: &Option<Boxed<Expr>>,
    items: &[Item],
    first: &mut Option<Offence>,
) -> Result<(), NoMemory>
    requires { IsReady site.now }
    ensures { OnOk result (first.new ≡ noted first.old (many_rules (place_of site.now) braces.token braces.at
        (form_of site.now.scope.names.now.base what.now size.now) items.now)) }
{
    match (what, size) {
        (DeclType::Number { .. }, Some(size)) => {
            let elements = site
                .constants
                .length_at(site.scope, braces.token, size.get());
            note_broken(
                site.scope,
                is_above(elements, items.len()),
                braces.at,
                27,
                first,
            );
            judge_array_items(alloc, site, braces, items, first)?;
        }
        (_, Some(_)) => judge_items(alloc, site, items, first)?,
        (DeclType::Any | DeclType::ById { .. }, None) => {
            judge_message_items(alloc, site, braces, DeclaredSignals::Unnamed, items, first)?;
        }
        (DeclType::ByName { name, .. }, None) => {
            let signals = DeclaredSignals::Named(site.scope.names.message(name.bytes()));
            judge_message_items(alloc, site, braces, signals, items, first)?;
        }
        (DeclType::Number { .. } | DeclType::Seconds | DeclType::Millis, None) => {
            note_broken(site.scope, true, braces.at, 27, first);
            judge_items(alloc, site, items, first)?;
        }
    }
    Ok(())
}

/// Notes what the initialiser of a variable of a type, with or without a size, that is declared at a
/// token breaks.
#[tactic(auto, using(check_names::proofs::FirstLemmas::noted_append))]
pub(crate) fn judge_initialiser(
    alloc: Global,
    site: &Site,
    token: u32,
    what: &DeclType,
    size: &Option<Boxed<Expr>>,
    init: &Init,
    first: &mut Option<Offence>,
) -> Result<(), NoMemory>
    requires { IsReady site.now }
    ensures { OnOk result (first.new ≡ noted first.old (initialiser_offences (place_of site.now) token
        (form_of site.now.scope.names.now.base what.now size.now) init.now)) }
{
    match init {
        Init::One(e) => {
            let sort = judge(alloc, site.scope, site.calls, e, first)?;
            note_one(site, token, what, size, e, sort, first);
        }
        Init::Many { items, at } => {
            let braces = Braces { token, at: *at };
            judge_many(alloc, site, braces, what, size, items.as_slice(), first)?;
        }
    }
    Ok(())
}
