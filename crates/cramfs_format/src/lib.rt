//! The cramfs format: the meaning of its bytes in either byte order (Linux
//! Documentation/filesystems/cramfs.rst and include/uapi/linux/cramfs_fs.h), the readers of their
//! fields (`Order`, `inode`, `superblock`), and the format's numbers (`disk`).
//!
//! The definitions are for images whose blocks are not compressed and are read at the offset in
//! their pointers. They are the byte order (`specs/Order.antt`), an inode and its fields
//! (`specs/Inode.antt`), the superblock (`specs/Superblock.antt`), whose checksum is that of the
//! crate `crc`, the references (`specs/Refers.antt`), the faults of an image (`specs/Faults.antt`),
//! and the tree of files that its bytes hold (`specs/Tree.antt`).
//!
//! Proved:
//!
//! - `laws::one_tree`: an image has at most one tree, whatever the byte order and the limits are;
//!   the order is the one in which the image begins with the magic.
//! - `laws::made_of_bytes`: the tree is a function of the bytes.
//! - `inode::{mode_at, type_at, uid_at, size_at, gid_at, room_at, offset_at, list_end_at, end_at}`,
//!   `superblock::{order_in, accessible_size, flags, stored_crc}`, `Order::word`, `first_field`,
//!   `field_after`: each field of an inode and of the superblock, a word, and the two fields of a
//!   packed word are read as the definitions say, in either byte order.
#![tactic(auto)]

pub mod disk;
pub mod inode;
pub mod laws;
mod order;
pub mod superblock;

pub use order::Order;
