// The rules of items of initialisers.

ghost use Rattle.std.specs.Prelude.{◌≡◌, OnOk, false, not};
ghost use Rattle.std.specs.Option.{option_map_or};
ghost use Rattle.capl_meaning.specs.Constant.{constant_at};
ghost use Rattle.capl_meaning.specs.DeclarationRules.{array_item_rules, field_item_rules, is_payload_index, item_offences, message_item_rules, name_item_rules};
ghost use Rattle.capl_meaning.specs.Message.{is_assignable_field, member_named};
ghost use Rattle.message_cells.specs.Message.{size};
ghost use Rattle.check_names.specs.First.{noted};
ghost use Rattle.check_sorts.specs.Form.{signals_in};
ghost use Rattle.check_sorts.specs.Message.{member_in};
ghost use Rattle.check_statements.specs.Item.{payload_offences};
ghost use Rattle.check_statements.specs.Site.{IsReady, place_of};

use crate::constant::judge_constant;
use crate::site::Site;
use capl_meaning::{MessageField, Offence};
use capl_tree::{Expr, Field, Item};
use check_expressions::{judge, judge_field, note_broken};
use check_sorts::{DeclaredSignals, Member, member_named};
use int_kinds::{Kind, bits};
use std::alloc::Global;
use texts::NoMemory;

/// Where the items of an initialiser stand.
#[derive(Clone, Copy)]
pub(crate) struct Braces {
    /// The token of the variable's name.
    pub token: u32,
    /// The token of the opening brace.
    pub at: u32,
}

/// Notes what an item of an initialiser of an array breaks.
#[tactic(auto, using(check_names::proofs::FirstLemmas::noted_append))]
pub(crate) fn judge_array_item(
    alloc: Global,
    site: &Site,
    braces: Braces,
    item: &Item,
    first: &mut Option<Offence>,
) -> Result<(), NoMemory>
    requires { IsReady site.now }
    ensures { OnOk result (first.new ≡ noted first.old
        (array_item_rules (place_of site.now) braces.token braces.at item.now)) }
{
    match item {
        Item::Plain(value) => judge_constant(alloc, site, braces.token, value, first)?,
        Item::Set { field, value } => {
            note_broken(site.scope, true, braces.at, 27, first);
            judge_field(alloc, site.scope, site.calls, field, first)?;
            judge(alloc, site.scope, site.calls, value, first)?;
        }
    }
    Ok(())
}

/// Whether a field of a message is assignable: its direction and its time are not.
fn is_assignable(field: MessageField) -> bool
    ensures { result ≡ is_assignable_field field }
{
    !matches!(field, MessageField::Dir | MessageField::Time)
}

/// Notes what a name in an initialiser of a message breaks.
fn note_name(site: &Site, at: u32, name_at: u32, member: Member, first: &mut Option<Offence>)
    ensures { first.new ≡ noted first.old (name_item_rules (place_of site.now) at name_at
        (member_in member)) }
{
    match member {
        Member::Field(field) => note_broken(site.scope, !is_assignable(field), at, 27, first),
        Member::Signal(_) => {}
        Member::Unusable => note_broken(site.scope, true, name_at, 23, first),
        Member::Unknown { by_name: true } => note_broken(site.scope, true, name_at, 11, first),
        Member::Unknown { by_name: false } => note_broken(site.scope, true, name_at, 28, first),
    }
}

/// How many bytes a kind has.
fn size(kind: Kind) -> u32
    ensures { result ≡ size kind }
{
    bits(kind) / 8
}

/// Whether numbers of a kind in a payload may begin at this byte.
fn is_payload_index(kind: Kind, index: i128) -> bool
    ensures { result ≡ is_payload_index kind index }
{
    0 <= index && index <= 8 - size(kind) as i128
}

/// Whether a constant is no byte of a payload at which numbers of a kind may begin.
fn passes_the_end(site: &Site, token: u32, kind: Kind, index: &Expr) -> bool
    requires { IsReady site.now }
    ensures { result ≡ option_map_or (λ i. not (is_payload_index kind i))
        (constant_at (place_of site.now) token index.now) false }
{
    match site.constants.constant_at(site.scope, token, index) {
        Some(i) => !is_payload_index(kind, i),
        None => false,
    }
}

/// Notes what payload bytes of a kind in an initialiser of a message break.
fn judge_payload(
    alloc: Global,
    site: &Site,
    braces: Braces,
    kind: Kind,
    index: &Expr,
    first: &mut Option<Offence>,
) -> Result<(), NoMemory>
    requires { IsReady site.now }
    ensures { OnOk result (first.new ≡ noted first.old
        (payload_offences (place_of site.now) braces.token braces.at kind index.now)) }
{
    judge_constant(alloc, site, braces.token, index, first)?;
    let broken = passes_the_end(site, braces.token, kind, index);
    note_broken(site.scope, broken, braces.at, 27, first);
    Ok(())
}

/// Notes what a field in an initialiser of a message with these signals breaks.
#[tactic(auto, using(check_names::proofs::FirstLemmas::noted_append))]
fn judge_item_field(
    alloc: Global,
    site: &Site,
    braces: Braces,
    signals: DeclaredSignals,
    field: &Field,
    first: &mut Option<Offence>,
) -> Result<(), NoMemory>
    requires { IsReady site.now }
    ensures { OnOk result (first.new ≡ noted first.old
        (field_item_rules (place_of site.now) braces.token braces.at (signals_in signals.entry) field.now)) }
{
    match field {
        Field::Named { name, at } => {
            note_name(
                site,
                braces.at,
                *at,
                member_named(signals, name.bytes()),
                first,
            );
        }
        Field::Bytes { kind, index, .. } => {
            judge_payload(alloc, site, braces, *kind, index.get(), first)?;
        }
    }
    Ok(())
}

/// Notes what an item of an initialiser of a message with these signals breaks.
#[tactic(auto, using(check_names::proofs::FirstLemmas::noted_append))]
pub(crate) fn judge_message_item(
    alloc: Global,
    site: &Site,
    braces: Braces,
    signals: DeclaredSignals,
    item: &Item,
    first: &mut Option<Offence>,
) -> Result<(), NoMemory>
    requires { IsReady site.now }
    ensures { OnOk result (first.new ≡ noted first.old
        (message_item_rules (place_of site.now) braces.token braces.at (signals_in signals.entry) item.now)) }
{
    match item {
        Item::Plain(value) => {
            note_broken(site.scope, true, braces.at, 27, first);
            judge(alloc, site.scope, site.calls, value, first)?;
        }
        Item::Set { field, value } => {
            judge_item_field(alloc, site, braces, signals, field, first)?;
            judge_constant(alloc, site, braces.token, value, first)?;
        }
    }
    Ok(())
}

/// Notes what the expressions of an item break by themselves.
#[tactic(auto, using(check_names::proofs::FirstLemmas::noted_append))]
pub(crate) fn judge_item(
    alloc: Global,
    site: &Site,
    item: &Item,
    first: &mut Option<Offence>,
) -> Result<(), NoMemory>
    requires { IsReady site.now }
    ensures { OnOk result (first.new ≡ noted first.old (item_offences (place_of site.now) item.now)) }
{
    match item {
        Item::Plain(value) => {
            judge(alloc, site.scope, site.calls, value, first)?;
        }
        Item::Set { field, value } => {
            judge_field(alloc, site.scope, site.calls, field, first)?;
            judge(alloc, site.scope, site.calls, value, first)?;
        }
    }
    Ok(())
}
