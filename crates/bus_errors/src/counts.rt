// The counts of errors of the nodes.

ghost use Rattle.std.specs.Prelude.{◌≡◌, false};
ghost use Rattle.channel_errors.specs.Errors.{is_off_in, counts_after_sent, counts_after_disturbed};

/// A node whose count is above this is off.
const GREATEST_COUNT: u16 = 255;

/// How much a disturbed frame adds to its node's count.
const DISTURBED: u16 = 8;

/// Whether the node is off by these counts.
pub(crate) fn is_off(counts: &[u16], node: u32) -> bool
    ensures { result ≡ is_off_in counts.now node }
{
    let place = node as usize;
    place < counts.len() && counts[place] > GREATEST_COUNT
}

/// Notes that a frame of the node was sent.
pub(crate) fn note_sent(counts: &mut [u16], node: u32)
    ensures { counts.new ≡ counts_after_sent counts.old node }
{
    let place = node as usize;
    if place < counts.len() {
        counts[place] = counts[place].saturating_sub(1);
    }
}

/// Notes that a frame of the node, which is not off, was disturbed.
pub(crate) fn note_disturbed(counts: &mut [u16], node: u32)
    requires { is_off_in counts.old node ≡ false }
    ensures { counts.new ≡ counts_after_disturbed counts.old node }
{
    let place = node as usize;
    if place < counts.len() {
        counts[place] += DISTURBED;
    }
}
