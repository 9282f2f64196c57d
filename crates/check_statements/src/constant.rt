// Expressions of which a constant is needed.

ghost use Rattle.std.specs.Prelude.{◌≡◌, OnOk};
ghost use Rattle.capl_meaning.specs.DeclarationRules.{constant_needed, constant_offences};
ghost use Rattle.capl_meaning.specs.Sort.{sort_of};
ghost use Rattle.check_names.specs.First.{noted};
ghost use Rattle.check_statements.specs.Site.{IsReady, place_of};

use crate::site::Site;
use capl_meaning::{Offence, Sort};
use capl_tree::Expr;
use check_expressions::{judge, note_broken};
use check_sorts::is_bad;
use std::alloc::Global;
use texts::NoMemory;

/// Notes that an expression of this sort is no constant, where the constants are those declared before
/// a token.
pub(crate) fn note_constant_needed(
    site: &Site,
    token: u32,
    e: &Expr,
    sort: Sort,
    first: &mut Option<Offence>,
)
    requires ready { IsReady site.now }
    requires sort { sort ≡ sort_of (place_of site.now) e.now }
    ensures { first.new ≡ noted first.old (constant_needed (place_of site.now) token e.now) }
{
    let broken = !is_bad(sort) && site.constants.constant_at(site.scope, token, e).is_none();
    note_broken(site.scope, broken, e.place(), 19, first);
}

/// Notes what an expression breaks of which a constant is needed.
#[tactic(auto, using(check_names::proofs::FirstLemmas::noted_append))]
pub(crate) fn judge_constant(
    alloc: Global,
    site: &Site,
    token: u32,
    e: &Expr,
    first: &mut Option<Offence>,
) -> Result<(), NoMemory>
    requires { IsReady site.now }
    ensures { OnOk result (first.new ≡ noted first.old (constant_offences (place_of site.now) token e.now)) }
{
    let sort = judge(alloc, site.scope, site.calls, e, first)?;
    note_constant_needed(site, token, e, sort, first);
    Ok(())
}
