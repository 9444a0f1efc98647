//! CRC-32, the checksum of ISO 3309 and ITU-T V.42. A long piece is first reduced to its last 300
//! bytes, without a table.
//!
//! Proved:
//!
//! - `crc32`, `crc32_more`: the CRC-32 of bytes, in one piece or in several, is the value of its
//!   definition, bit by bit (`specs/Crc.antt`).
#![tactic(auto)]

mod bits;
mod blocks;
mod checksum;

pub use checksum::{crc32, crc32_more};
