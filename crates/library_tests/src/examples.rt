//! Short, proved callers of the libraries, which are run as tests. The lib.rt of a library names
//! its caller.
//!
//! Proved: the conditions of each call are met by the contracts of the calls before it. For
//! example, `check` promises that a tree has at most 65 levels, which is the condition of `list`,
//! `walk`, `Files::new` and `serve`.
mod built;
mod cached;
mod checked;
mod described;
mod mapped;
mod opened;
mod planned;
mod served;
mod streamed;
mod walked;
