// The rule of the labels of a `switch`.

ghost use Rattle.std.specs.Prelude.{◌≡◌, ◌++◌, ◌∷◌, [], IfOk, IfSome, List, OnOk};
ghost use Rattle.std.specs.List.{list_any};
ghost use Rattle.int_kinds.specs.Kind.{IsNumber};
ghost use Rattle.capl_meaning.specs.StatementRules.{labels_rule};
ghost use Rattle.check_names.specs.First.{noted};
ghost use Rattle.check_names.specs.Variable.{lent};
ghost use Rattle.check_statements.specs.Inside.Label.{Has, SaidLabel, same_saying, saying_in, saying_of_case, saying_of_value};
ghost use Rattle.check_statements.specs.Site.{IsReady, place_of};
ghost use Rattle.check_statements.specs.Statement.{labels_in};

use crate::site::Site;
use capl_meaning::{Offence, Sort};
use capl_tree::{Group, Label};
use check_expressions::note_broken;
use int_kinds::{join, wrap};
use std::alloc::Global;
use std::collections::BTreeSet;
use texts::NoMemory;

/// What a label says.
#[derive(Clone, Copy, PartialEq, Eq)]
enum Saying {
    /// `default`
    Default,
    /// A number in the kind in which the `switch` compares.
    Case(i128),
    /// Nothing, since its value is no constant or nothing is compared.
    Unclear,
}

/// What the labels so far say.
#[derive(Drop)]
struct Seen {
    /// The numbers.
    numbers: BTreeSet<i128>,
    /// Whether one is `default`.
    default: bool,
}

impl Seen {
    /// Nothing.
    fn new(alloc: Global) -> Seen
        ensures { Has result [] }
    {
        Seen {
            numbers: BTreeSet::new(alloc),
            default: false,
        }
    }

    /// Whether a label so far says this.
    fn has(&self, saying: Saying) -> bool
        ensures { (earlier : List SaidLabel) → Has self.now earlier →
            result ≡ list_any (λ said. same_saying (saying_in saying) said.saying) earlier }
    {
        match saying {
            Saying::Default => self.default,
            Saying::Case(n) => self.numbers.contains(&n),
            Saying::Unclear => false,
        }
    }

    /// Takes what one more label says.
    fn add(&mut self, saying: Saying) -> Result<(), NoMemory>
        ensures { (earlier : List SaidLabel) (said : SaidLabel) → said.saying ≡ saying_in saying →
            Has self.old earlier → OnOk result (Has self.new (said ∷ earlier)) }
    {
        match saying {
            Saying::Default => self.default = true,
            Saying::Case(n) => {
                self.numbers.insert(n)?;
            }
            Saying::Unclear => {}
        }
        Ok(())
    }
}

/// What a `case` of a value says in a `switch` over an expression of this sort.
fn saying_of_case(on: Sort, value: Option<i128>) -> Saying
    requires { IfSome value IsNumber }
    ensures { saying_in result ≡ saying_of_case on value }
{
    match (on, value) {
        (Sort::Number(kind), Some(n)) => Saying::Case(wrap(join(kind, kind), n)),
        _ => Saying::Unclear,
    }
}

/// What a label says in a `switch` over an expression of this sort.
fn saying_of(site: &Site, on: Sort, label: &Label) -> Saying
    requires { IsReady site.now }
    ensures { saying_in result
        ≡ saying_of_value (place_of site.now) label.now.at on label.now.value }
{
    match &label.value {
        None => Saying::Default,
        Some(value) => saying_of_case(on, site.constants.constant_at(site.scope, label.at, value)),
    }
}

/// Appends labels.
fn list_labels<'p>(labels: &'p [Label], into: &mut Vec<&'p Label>) -> Result<(), NoMemory>
    ensures { OnOk result (lent into.new.items ≡ lent into.old.items ++ labels.now) }
{
    for label in labels {
        into.push(label)?;
    }
    Ok(())
}

/// The labels of groups, in order.
fn labels_of<'p>(alloc: Global, groups: &'p [Group]) -> Result<Vec<&'p Label>, NoMemory>
    ensures { IfOk result (λ all. lent all.items ≡ labels_in groups.now) }
{
    let mut all = Vec::new(alloc);
    for group in groups {
        list_labels(group.labels.as_slice(), &mut all)?;
    }
    Ok(all)
}

/// Notes labels that say what an earlier one says.
fn note_repeated(
    alloc: Global,
    site: &Site,
    on: Sort,
    labels: &[&Label],
    first: &mut Option<Offence>,
) -> Result<(), NoMemory>
    requires { IsReady site.now }
    ensures { OnOk result (first.new ≡
        noted first.old (labels_rule (place_of site.now) on (lent labels.now))) }
{
    let mut seen = Seen::new(alloc);
    for label in labels {
        let saying = saying_of(site, on, label);
        let known = seen.has(saying);
        note_broken(site.scope, known, label.at, 20, first);
        seen.add(saying)?;
    }
    Ok(())
}

/// Notes labels of a `switch` over an expression of this sort that say what an earlier one says. Takes
/// time n log n in the labels.
pub(crate) fn note_labels(
    alloc: Global,
    site: &Site,
    on: Sort,
    groups: &[Group],
    first: &mut Option<Offence>,
) -> Result<(), NoMemory>
    requires { IsReady site.now }
    ensures { OnOk result (first.new ≡
        noted first.old (labels_rule (place_of site.now) on (labels_in groups.now))) }
{
    let labels = labels_of(alloc, groups)?;
    note_repeated(alloc, site, on, labels.as_slice(), first)?;
    Ok(())
}
