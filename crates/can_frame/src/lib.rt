//! Classic CAN frames of ISO 11898-1 and their two keys.
//!
//! A `Frame` always has an identifier, a data length code and a channel in range, and 0 in each
//! byte past its payload. `arb_key` orders frames as arbitration on the bus does, by the first bit
//! in which their arbitration fields differ. `sel_key` names an identifier by one number. No call
//! takes memory.
#![tactic(auto)]

ghost use Rattle.std.specs.Prelude.{◌≡◌, ◌≤◌, ◌↔◌, IsTrue, IsSome, IfSome};
ghost use Rattle.can_frame.specs.Frame.{IsFrame, IsIdent, FrameFields, data_len_of, data_len, padded};

pub use arbitration::{arb_key, sel_key};
use std::marker::Model;

mod arbitration;
pub mod laws;

/// The identifier of a frame, and by its variant the frame's format.
#[derive(Clone, Copy, Debug, PartialEq, Eq)]
pub enum Ident {
    /// A standard identifier of 11 bits: 0 to 0x7FF in a frame.
    Std(u16),
    /// An extended identifier of 29 bits: 0 to 0x1FFF_FFFF in a frame.
    Ext(u32),
}

/// A classic CAN data or remote frame, and the channel that it belongs to.
///
/// Contracts see it as a `FrameFields`, and each value is an `IsFrame`.
#[derive(Clone, Copy, Debug, PartialEq, Eq)]
pub struct Frame {
    ident: Ident,
    rtr: bool,
    dlc: u8,
    payload: [u8; 8],
    can: u8,
}

impl Model for Frame {
    ghost use Rattle.can_frame.specs.Frame.{FrameFields, IsFrame};

    ghost Value = { FrameFields };

    ghost use Rattle.can_frame.specs.Inside.Frame.{fields_of};

    ghost view = { fields_of };

    ghost invariant = { λ f. IsFrame (fields_of f) };

    ghost inverse = { λ v. record {
      ident = v.ident;
      rtr = v.remote;
      dlc = v.dlc;
      payload = v.payload;
      can = v.can;
    } };
}

impl Frame {
    /// The frame with these fields, or `None` exactly where the identifier is above 0x7FF
    /// (standard) or 0x1FFF_FFFF (extended), `dlc` is above 8 or `can` is neither 1 nor 2.
    ///
    /// The payload of a data frame is its first `dlc` bytes. A remote frame has no data field, so
    /// it has no payload, whatever its `dlc` asks for. Bytes past the payload become 0.
    pub fn make(ident: Ident, rtr: bool, dlc: u8, payload: [u8; 8], can: u8) -> Option<Frame>
        ensures in_range { IsSome result ↔ (IsIdent ident × (dlc ≤ 8) × (1 ≤ can) × (can ≤ 2)) }
        ensures ident { IfSome result (λ f. f.ident ≡ ident) }
        ensures remote { IfSome result (λ f. f.remote ≡ rtr) }
        ensures dlc { IfSome result (λ f. f.dlc ≡ dlc) }
        ensures payload { IfSome result (λ f. f.payload ≡ padded (data_len f) payload) }
        ensures can { IfSome result (λ f. f.can ≡ can) }
        ensures valid { IfSome result IsFrame }
    {
        if !is_ident(ident) || dlc > 8 || can < 1 || can > 2 {
            return None;
        }
        Some(Frame {
            ident,
            rtr,
            dlc,
            payload: first_bytes(payload, data_len_of(rtr, dlc)),
            can,
        })
    }

    /// The identifier.
    pub fn ident(&self) -> Ident
        ensures value { result ≡ self.now.ident }
        ensures valid { IsFrame self.now }
    {
        self.ident
    }

    /// Whether this is a remote frame.
    pub fn rtr(&self) -> bool
        ensures value { result ≡ self.now.remote }
        ensures valid { IsFrame self.now }
    {
        self.rtr
    }

    /// The data length code, 0 to 8. A remote frame has one too, and no data.
    pub fn dlc(&self) -> u8
        ensures value { result ≡ self.now.dlc }
        ensures valid { IsFrame self.now }
    {
        self.dlc
    }

    /// How many data bytes go over the bus, 0 to 8: none of a remote frame, else as many as the data
    /// length code says.
    pub fn data_len(&self) -> usize
        ensures value { result ≡ data_len self.now }
        ensures in_range { result ≤ 8 }
    {
        data_len_of(self.rtr, self.dlc)
    }

    /// The eight payload bytes; those past the payload are 0.
    pub fn payload(&self) -> [u8; 8]
        ensures value { result ≡ self.now.payload }
        ensures valid { IsFrame self.now }
    {
        self.payload
    }

    /// The channel, 1 or 2.
    pub fn can(&self) -> u8
        ensures value { result ≡ self.now.can }
        ensures valid { IsFrame self.now }
    {
        self.can
    }
}

/// How many data bytes a frame with these fields sends.
fn data_len_of(remote: bool, dlc: u8) -> usize
    ensures { result ≡ data_len_of remote dlc }
{
    if remote { 0 } else { usize::from(dlc) }
}

/// The first `len` bytes, and zeros in place of the others.
fn first_bytes(mut payload: [u8; 8], len: usize) -> [u8; 8]
    requires { len ≤ 8 }
    ensures { result ≡ padded len payload }
{
    payload[len..].fill(0);
    payload
}

/// Whether the identifier's format can carry it.
fn is_ident(ident: Ident) -> bool
    ensures { IsTrue result ↔ IsIdent ident }
{
    match ident {
        Ident::Std(number) => number <= 0x7FF,
        Ident::Ext(number) => number <= 0x1FFF_FFFF,
    }
}
