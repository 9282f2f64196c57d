//! The bits of a classic CAN frame on the bus, by ISO 11898-1: its fields, its CRC and its length.
//!
//! The unstuffed bits go from SOF to the last CRC bit. After five equal bits, stuff bits counted,
//! the bus has one bit of the other value, also after the last CRC bit. Ten bits follow: the CRC
//! delimiter, the ACK slot, the ACK delimiter and seven bits of EOF.
#![tactic(auto)]

pub use bits::bits_of;
pub use crc::crc15;
pub use length::{stuffed_len, worst_len};

mod bits;
mod crc;
mod field;
mod header;
pub mod laws;
mod length;
mod stuffing;
mod walk;
