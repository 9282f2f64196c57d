// The order in which requests go.

ghost use Rattle.std.specs.Prelude.{◌≡◌};
ghost use Rattle.can_bus.specs.Waiting.{goes_before};

use crate::Waiting;
use can_frame::arb_key;

/// Whether `a` goes before `b`: by the arbitration fields, of equal fields by the lesser node, and
/// of one node by the lesser number.
#[tactic(auto, using(crate::proofs::Precedence::key_tests))]
pub fn goes_before(a: &Waiting, b: &Waiting) -> bool
    ensures { result ≡ goes_before a.now b.now }
{
    let a_key = arb_key(&a.frame);
    let b_key = arb_key(&b.frame);
    if a_key != b_key {
        return a_key < b_key;
    }
    a.node < b.node || a.node == b.node && a.number < b.number
}
