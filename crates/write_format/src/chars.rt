// Which cells are characters.

ghost use Rattle.std.specs.Prelude.{◌≡◌, ◌↔◌, ◌<◌, ◌^◌, IfOk, IsTrue};
ghost use Rattle.write_format.specs.Line.{IsCharArray};
ghost use Rattle.write_format.specs.Inside.Chars.{is_other};

use int_kinds::Kind;
use std::alloc::Global;
use std::marker::Model;
use texts::NoMemory;

/// The kinds of cells, and for each place how many cells before it are no characters, so that to look
/// whether an array is one of characters takes the same time for each array.
///
/// Contracts see it as the kinds.
#[derive(Debug, Drop)]
pub struct CharCells<'a> {
    kinds: &'a [Kind],
    others: Vec<usize>,
}

impl<'a> Model for CharCells<'a> {
    ghost use Rattle.std.specs.Prelude.{List, length};
    ghost use Rattle.int_kinds.specs.declared.kinds.Kind.{Kind};
    ghost use Rattle.write_format.specs.Inside.Chars.{CountsOthers};

    ghost Value = { List Kind };

    ghost view = { λ chars. chars.kinds.now };

    ghost invariant = { λ chars. CountsOthers chars.kinds.now (length chars.kinds.now) chars.others.items };
}

impl<'a> CharCells<'a> {
    /// The cells of these kinds. Takes time and memory linear in them.
    #[tactic(auto, using(crate::proofs::CharLemmas::first_count, crate::proofs::CharLemmas::one_more_count))]
    pub fn of(alloc: Global, kinds: &'a [Kind]) -> Result<CharCells<'a>, NoMemory>
        ensures { IfOk result (λ chars. chars ≡ kinds.now) }
    {
        let mut others = Vec::with_capacity(alloc, kinds.len().saturating_add(1))?;
        let mut count = 0;
        others.push(count)?;
        for kind in kinds {
            if is_other(*kind) {
                count += 1;
            }
            others.push(count)?;
        }
        Ok(CharCells { kinds, others })
    }

    /// Whether an array is there and has the kind char throughout.
    #[tactic(auto, using(crate::proofs::CharLemmas::is_char_array, crate::proofs::CharLemmas::equal_counts))]
    pub(crate) fn has_array(&self, base: usize, len: usize) -> bool
        requires { (base < 2 ^ 32) × (len < 2 ^ 32) }
        ensures { IsTrue result ↔ IsCharArray self.now (base, len) }
    {
        let end = base + len;
        end <= self.kinds.len() && self.others[base] == self.others[end]
    }
}

/// Whether a kind is none of characters.
fn is_other(kind: Kind) -> bool
    ensures { result ≡ is_other kind }
{
    !matches!(kind, Kind::Char)
}
