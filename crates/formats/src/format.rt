//! The formats, and how bytes and words name them.
ghost use Rattle.std.specs.Prelude.{◌≡◌, ◌≢◌, IfNone, IfSome};
ghost use Rattle.cramfs_format.specs.declared.order.Order.{Order};
ghost use Rattle.formats.specs.Begins.{Begins, BeginsRomfs, BeginsCramfs};
ghost use Rattle.formats.specs.Format.{romfs, cramfs, cramfs_in, format_of, name_of};

use cramfs_format::Order;
use cramfs_format::superblock::order_in;
use romfs_format::superblock::begins;

/// A format of an image.
#[derive(Clone, Copy, PartialEq, Eq)]
pub enum Format {
    /// romfs.
    Romfs,
    /// cramfs for machines whose words begin with their lowest byte (little-endian).
    Cramfs,
    /// cramfs for machines whose words begin with their highest byte (big-endian).
    CramfsBig,
}

impl Format {
    /// Returns the word that names the format, on the command line and in the lines that are
    /// printed.
    pub fn name(self) -> &'static str
        ensures { result.now ≡ name_of self }
    {
        match self {
            Format::Romfs => "romfs",
            Format::Cramfs => "cramfs",
            Format::CramfsBig => "cramfs-be",
        }
    }

    /// Returns the format that a word names, or `None` if the word names none.
    pub fn named(word: &str) -> Option<Format>
        ensures some { IfSome result (λ f. word.now ≡ name_of f) }
        ensures none { IfNone result ((f : Format) → word.now ≢ name_of f) }
    {
        match word {
            "romfs" => Some(Format::Romfs),
            "cramfs" => Some(Format::Cramfs),
            "cramfs-be" => Some(Format::CramfsBig),
            _ => None,
        }
    }

    /// Returns cramfs in this byte order.
    pub fn of_order(order: Order) -> Format
        ensures is { result ≡ cramfs_in order }
        ensures means { format_of result ≡ cramfs order }
    {
        match order {
            Order::Little => Format::Cramfs,
            Order::Big => Format::CramfsBig,
        }
    }

    /// Returns the byte order of cramfs, or `None` if the format is romfs, which has only one.
    pub fn order(self) -> Option<Order>
        ensures some { IfSome result (λ o. format_of self ≡ cramfs o) }
        ensures none { IfNone result (format_of self ≡ romfs) }
    {
        match self {
            Format::Romfs => None,
            Format::Cramfs => Some(Order::Little),
            Format::CramfsBig => Some(Order::Big),
        }
    }

    /// Returns the format that bytes begin as, or `None` if they begin as none.
    pub fn in_bytes(bytes: &[u8]) -> Option<Format>
        ensures begins { IfSome result (λ f. Begins (format_of f) bytes.now) }
        ensures none { IfNone result ((BeginsRomfs bytes.now → ⊥) × (BeginsCramfs bytes.now → ⊥)) }
    {
        if begins(bytes) {
            return Some(Format::Romfs);
        }
        match order_in(bytes) {
            Some(order) => Some(Format::of_order(order)),
            None => None,
        }
    }
}
