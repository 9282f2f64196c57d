// What event procedures react to.

ghost use Rattle.std.specs.Prelude.{◌≡◌, IfOk, flat_map};
ghost use Rattle.capl_meaning.specs.Statement.{event_of, timer_named};
ghost use Rattle.capl_meaning.specs.ProcedureRules.{ranges_of};
ghost use Rattle.type_expressions.specs.Layout.{IsLayoutOf};
ghost use Rattle.typed_laws.specs.Laid.{AreDistinct};

use capl_tree::{Head, Sel};
use check_names::{Names, push_ranges};
use items::Items;
use run_effects::{Event, Selector};
use std::alloc::Global;
use texts::NoMemory;
use type_expressions::Layout;

/// What the selectors of a message procedure select.
fn selectors_of(
    alloc: Global,
    names: &Names,
    selectors: &[Sel],
) -> Result<Items<Selector>, NoMemory>
    ensures { IfOk result (λ all. all ≡ flat_map (ranges_of names.now.base) selectors.now) }
{
    let mut all = Vec::new(alloc);
    for selector in selectors {
        push_ranges(names, selector, &mut all)?;
    }
    Ok(Items::from_list(all))
}

/// The number of the global timer of a name; 0 where there is none.
fn timer_named(names: &Names, layout: &Layout, name: &[u8]) -> u32
    requires layout { IsLayoutOf names.now layout.now }
    requires distinct { AreDistinct names.now.variables }
    ensures { result ≡ timer_named names.now name.now }
{
    match names.global(name) {
        Some(number) => layout.timer(number),
        None => 0,
    }
}

/// What a procedure with this head reacts to; a function reacts to nothing.
pub(crate) fn event_of(
    alloc: Global,
    names: &Names,
    layout: &Layout,
    head: &Head,
) -> Result<Option<Event>, NoMemory>
    requires layout { IsLayoutOf names.now layout.now }
    requires distinct { AreDistinct names.now.variables }
    ensures { IfOk result (λ event. event ≡ event_of names.now head.now) }
{
    Ok(match head {
        Head::PreStart => Some(Event::PreStart),
        Head::Start => Some(Event::Start),
        Head::Stop => Some(Event::Stop),
        Head::Message(selectors) => {
            Some(Event::Message(selectors_of(alloc, names, selectors.as_slice())?))
        }
        Head::Timer { name, .. } => Some(Event::Timer(timer_named(names, layout, name.bytes()))),
        Head::Key { value } => Some(Event::Key(*value)),
        Head::Function { .. } => None,
    })
}
