// Payloads of messages, and how bytes are put in them.

ghost use Rattle.std.specs.Prelude.{◌≡◌, ◌+◌, ◌<◌, ◌^◌, ◌∷◌, [], ℕ, length, slice_index};
ghost use Rattle.message_cells.specs.Message.{bytes_of_number, size};
ghost use Rattle.type_starts.specs.Payload.{byte_put};

use int_kinds::{Kind, bits};

/// How many bytes a kind has.
pub(crate) fn size(kind: Kind) -> u32
    ensures { result ≡ size kind }
{
    bits(kind) / 8
}

/// Puts a byte in a payload, if there is one of this number.
#[tactic(auto, using(crate::proofs::PayloadLemmas::put))]
fn put_byte(from: u32, byte: u8, payload: &mut [u8; 8])
    ensures { (k : ℕ) → k < 8 → slice_index payload.new k ≡ byte_put from (byte ∷ []) payload.old k }
{
    if from < 8 {
        payload[from as usize] = byte;
    }
}

/// Puts so many bytes of a number in a payload, from one of its bytes on, the least significant first.
/// What would stand behind its end is left out.
pub(crate) fn put_bytes(count: u32, from: u32, n: u64, payload: &mut [u8; 8])
    requires { from + count < 2 ^ 32 }
    ensures { (k : ℕ) → k < 8 →
        slice_index payload.new k ≡ byte_put from (bytes_of_number count n) payload.old k }
{
    if count == 0 {
        return;
    }
    put_byte(from, (n % 256) as u8, payload);
    put_bytes(count - 1, from + 1, n / 256, payload);
}

/// A payload has 8 bytes. Does nothing: its contract is what it is called for.
pub(crate) fn has_eight_bytes(_payload: &[u8; 8])
    ensures { length _payload.now ≡ 8 }
{}

/// Bytes are below 256. Does nothing: its contract is what it is called for.
pub(crate) fn are_bytes(bytes: &[u8])
    ensures { (k : ℕ) → slice_index bytes.now k < 256 }
{
    let _first = bytes.first();
}
