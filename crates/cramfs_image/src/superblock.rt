//! The superblock of an image: the accessible bytes, and the fault of the image as a whole.
ghost use Rattle.std.specs.Prelude.{◌≡◌, ◌≢◌, ◌≤◌, ◌<◌, ◌^◌, ◌↔◌, IsTrue, length, IfOk, IfErr};
ghost use Rattle.std.specs.Prelude.{IfSome, SomeIff, option_copied};
ghost use Rattle.std.specs.Bool.{OnTrue, OnFalse};
ghost use Rattle.crc.specs.Crc.{crc_of};
ghost use Rattle.cramfs_format.specs.Order.{word as word_of};
ghost use Rattle.cramfs_format.specs.Superblock.{magic, order_of, accessible, HasSize, without_crc};
ghost use Rattle.cramfs_format.specs.Superblock.{HasCrc, HasSignature, HasRoot, IsSuperblock};
ghost use Rattle.cramfs_format.specs.Superblock.{HasImageFault};

use crate::accessible::Accessible;
use cramfs_format::Order;
use cramfs_format::disk::{ALL_FLAGS, MOST_BYTES, SHIFTED_ROOT, SIGNATURE};
use cramfs_format::superblock::{has_size, order_in, stated_size};
use crc::{crc32, crc32_more};
use rom_fields::{Fault, fault};

/// The value of the CRC's own field when the CRC is computed.
const NO_CRC: [u8; 4] = [0; 4];

/// Returns the accessible bytes, or `None` if the image cannot have its stated size.
#[tactic(auto, unfolding(cramfs_format::specs::Superblock::accessible_size))]
pub fn accessible_bytes<'a>(order: Order, bytes: &'a [u8]) -> Option<&'a [u8]>
    requires { 76 ≤ length bytes.now }
    ensures part { SomeIff (option_copied result) (HasSize order bytes.now)
        (accessible order bytes.now) }
    ensures small { IfSome result (λ b. length b.now < 2 ^ 32) }
    ensures long { IfSome result (λ b. 76 ≤ length b.now) }
{
    if has_size(order, bytes) {
        let size = stated_size(order, bytes) as usize;
        if size < 76 || bytes.len() < size {
            return None;
        }
        return Some(&bytes[..size]);
    }
    Some(&bytes[..bytes.len().min(MOST_BYTES as usize)])
}

/// The CRC of the bytes with its own field set to zero.
fn crc_with_no_field(b: &[u8]) -> u32
    requires { 76 ≤ length b.now }
    ensures { result ≡ crc_of (without_crc b.now) }
{
    let front = crc32(&b[..32]);
    let upto = crc32_more(front, NO_CRC.as_slice());
    crc32_more(upto, &b[36..])
}

/// Whether the stored CRC, if there is one, is that of the bytes with its own field set to zero.
fn has_crc(b: &Accessible<'_>) -> bool
    ensures right { OnTrue result (HasCrc b.now.order b.now.bytes.now) }
    ensures wrong { OnFalse result (HasCrc b.now.order b.now.bytes.now → ⊥) }
{
    if b.word(8) % 2 != 1 {
        return true;
    }
    if b.word(32) != crc_with_no_field(b.bytes) {
        return false;
    }
    true
}

/// Whether the signature is at 16.
fn has_signature(b: &[u8]) -> bool
    requires { 76 ≤ length b.now }
    ensures { IsTrue result ↔ HasSignature b.now }
{
    &b[16..32] == SIGNATURE.as_slice()
}

/// Whether the root is a directory whose list is where a list may be.
fn has_root(b: &Accessible<'_>) -> bool
    ensures root { OnTrue result (HasRoot b.now.order b.now.bytes.now) }
    ensures other { OnFalse result (HasRoot b.now.order b.now.bytes.now → ⊥) }
{
    if b.type_at(64) != 4 {
        return false;
    }
    let offset = b.offset_at(64);
    let shifted = b.word(8) / SHIFTED_ROOT % 2 == 1;
    if !shifted && offset != 0 && offset != 76 && offset != 588 {
        return false;
    }
    if offset == 0 && b.size_at(64) != 0 {
        return false;
    }
    true
}

// The faults of an image as a whole, each at the offset of what it is about.
const SHORT: Fault = Fault {
    number: fault::SHORT,
    at: 0,
};

const NO_MAGIC: Fault = Fault {
    number: fault::MAGIC,
    at: 0,
};

const BAD_SIZE: Fault = Fault {
    number: fault::SIZE,
    at: 4,
};

const UNKNOWN_FLAGS: Fault = Fault {
    number: fault::FLAGS,
    at: 8,
};

const NO_SIGNATURE: Fault = Fault {
    number: fault::SIGNATURE,
    at: 16,
};

const OTHER_CRC: Fault = Fault {
    number: fault::CRC,
    at: 32,
};

const BAD_ROOT: Fault = Fault {
    number: fault::ROOT,
    at: 64,
};

/// The accessible bytes in this byte order, or the first fault after the magic of the image as a
/// whole, in that order.
fn read_in_order<'a>(order: Order, bytes: &'a [u8]) -> Result<Accessible<'a>, Fault>
    requires long { 76 ≤ length bytes.now }
    requires begins { word_of order bytes.now 0 ≡ magic }
    ensures order { IfOk result (λ b. b.order ≡ order) }
    ensures ok { IfOk result (λ b. IsSuperblock order bytes.now b.bytes.now) }
    ensures fault { IfErr result (HasImageFault order bytes.now) }
{
    let Some(part) = accessible_bytes(order, bytes) else {
        return Err(BAD_SIZE);
    };
    let b = Accessible { bytes: part, order };
    if b.word(8) >= ALL_FLAGS {
        return Err(UNKNOWN_FLAGS);
    }
    if !has_crc(&b) {
        return Err(OTHER_CRC);
    }
    if !has_signature(part) {
        return Err(NO_SIGNATURE);
    }
    if !has_root(&b) {
        return Err(BAD_ROOT);
    }
    Ok(b)
}

/// Returns the accessible bytes in the byte order in which the image begins, or the first fault of
/// the image as a whole: 2 Short, 3 Magic, 4 Size, 6 Flags, 7 Crc, 8 Signature, 9 Root.
pub fn read_superblock<'a>(bytes: &'a [u8]) -> Result<Accessible<'a>, Fault>
    ensures order { IfOk result (λ b. b.order ≡ order_of bytes.now) }
    ensures ok { IfOk result (λ b. IsSuperblock b.order bytes.now b.bytes.now) }
    ensures fault { IfErr result (HasImageFault (order_of bytes.now) bytes.now) }
{
    if bytes.len() < 76 {
        return Err(SHORT);
    }
    let Some(order) = order_in(bytes) else {
        return Err(NO_MAGIC);
    };
    read_in_order(order, bytes)
}
