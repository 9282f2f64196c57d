// The first offence so far.

ghost use Rattle.std.specs.Prelude.{◌≡◌, Some};
ghost use Rattle.check_names.specs.First.{earlier, is_no_later};

use capl_meaning::Offence;

/// Whether an offence comes no later than another: by its file, its token and its rule's number.
fn is_no_later(a: Offence, b: Offence) -> bool
    ensures { result ≡ is_no_later a b }
{
    if a.file != b.file {
        return a.file < b.file;
    }
    if a.token != b.token {
        return a.token < b.token;
    }
    a.rule.number <= b.rule.number
}

/// Notes an offence: it is the first now if none was noted before it that comes no later.
pub fn note(first: &mut Option<Offence>, offence: Offence)
    ensures { first.new ≡ Some (earlier first.old offence) }
{
    match *first {
        Some(known) if is_no_later(known, offence) => {}
        _ => *first = Some(offence),
    }
}
