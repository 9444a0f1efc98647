//! The steps of a walk through the names of a tree.
ghost use Rattle.std.specs.Prelude.{◌≡◌, ◌+◌, ◌<◌, ◌≤◌, ◌++◌, false, [], length, MatchOption, IsOk};
ghost use Rattle.std.specs.Prelude.{OnOk, OnErr};
ghost use Rattle.arrayvec.specs.ArrayVec.{array_vec_len};
ghost use Rattle.rom_fields.specs.Texts.{escaped};
ghost use Rattle.rom_fields.specs.Written.{Puts, sink};
ghost use Rattle.rom_tree.specs.Tree.{IsShallow};
ghost use Rattle.rom_tree.specs.Image.{Image};
ghost use Rattle.rom_tree.specs.Names.{names};
ghost use Rattle.rom_tree.specs.Frames.{AreFrames, Follows, Gives};
ghost use Rattle.rom_tree.specs.Walks.{IsWalk, to_come, given_path, given_name, IsGiven, IsOver};

use crate::frame::{Frame, Walk};
use crate::image::{TreeImage, is_directory_at};
use crate::path::{append_way, put_frames, put_name};
use crate::types::{Cursor, NoRoom, NodeId};
use arrayvec::ArrayVec;
use rom_fields::{ByteWrite, put};

/// The result of a step: a node, its name, and whether it is a directory that was entered.
#[derive(Clone, Copy)]
struct Found<'a> {
    node: NodeId,
    name: &'a [u8],
    entered: bool,
}

/// Makes one step of a walk: returns the last frame's next entry, or nothing at the end of that
/// frame.
fn step<'a, T: TreeImage<'a>>(image: &T, stack: &mut ArrayVec<Frame<'a>, 65>) -> Option<Found<'a>>
    requires frames { AreFrames (T.image image.now) 0 stack.old.items }
    requires some { 0 < array_vec_len stack.old }
    ensures { MatchOption result (Follows (T.image image.now) stack.old.items stack.new.items [])
        (λ f. Gives (T.image image.now) stack.old.items stack.new.items f.name f.node.0 f.entered) }
{
    let Some(frame) = stack.pop() else {
        return None;
    };
    let Some(entry) = image.entry(frame.directory, frame.cursor) else {
        return None;
    };
    stack.push(Frame {
        directory: frame.directory,
        cursor: entry.cursor,
        name: frame.name,
    });
    let entered = is_directory_at(image, entry.node);
    if entered {
        stack.push(Frame {
            directory: entry.node,
            cursor: Cursor::START,
            name: Some(entry.name),
        });
    }
    Some(Found {
        node: entry.node,
        name: entry.name,
        entered,
    })
}

impl<'a> Walk<'a> {
    /// Makes a walk that has returned no name yet.
    pub fn new() -> Walk<'a>
        ensures walk { (m : Image) → IsShallow m.tree → IsWalk m result }
        ensures all { (m : Image) → to_come m result ≡ names m.tree }
    {
        Walk {
            stack: ArrayVec::new(),
            begun: false,
            name: None,
            entered: false,
        }
    }

    /// Returns the root.
    fn begin<T: TreeImage<'a>>(&mut self, image: &T) -> NodeId
        requires walk { IsWalk (T.image image.now) self.old }
        requires fresh { self.old.begun ≡ false }
        ensures walk { IsWalk (T.image image.now) self.new }
        ensures given { IsGiven (T.image image.now) self.old self.new result.0 }
    {
        let root = image.root();
        self.begun = true;
        self.entered = is_directory_at(image, root);
        if self.entered {
            self.stack.push(Frame {
                directory: root,
                cursor: Cursor::START,
                name: None,
            });
        }
        root
    }

    /// Returns the next name's node, or `None` after the last name. Then the walk has that name and
    /// its path.
    pub fn next<T: TreeImage<'a>>(&mut self, image: &T) -> Option<NodeId>
        requires { IsWalk (T.image image.now) self.old }
        ensures walk { IsWalk (T.image image.now) self.new }
        ensures given { MatchOption result (IsOver (T.image image.now) self.old self.new)
            (λ n. IsGiven (T.image image.now) self.old self.new n.0) }
    {
        if !self.begun {
            return Some(self.begin(image));
        }
        while !self.stack.is_empty() {
            if let Some(found) = step(image, &mut self.stack) {
                self.name = Some(found.name);
                self.entered = found.entered;
                return Some(found.node);
            }
        }
        None
    }

    /// Returns the name of the node that was returned last. It is empty for the root.
    pub fn name(&self) -> &'a [u8]
        ensures { result.now ≡ given_name self.now }
    {
        match self.name {
            Some(name) => name,
            None => &[],
        }
    }

    /// Puts the path, escaped, of the node that was returned last.
    pub fn put_path<W: ByteWrite>(&self, w: &mut W, failed: &mut bool)
        ensures { Puts (sink (W.output w.old) failed.old)
            (sink (W.output w.new) failed.new) (escaped (given_path self.now)) }
    {
        match self.name {
            None => put(w, failed, b"/"),
            Some(name) => {
                put_frames(w, failed, self.stack.as_slice());
                if !self.entered {
                    put_name(w, failed, Some(name));
                }
            }
        }
    }

    /// Appends the path, not escaped, of the node that was returned last.
    ///
    /// # Errors
    ///
    /// `NoRoom` if it does not fit. Then the buffer is unchanged.
    pub fn append_path<const N: usize>(&self, path: &mut ArrayVec<u8, N>) -> Result<(), NoRoom>
        ensures fits { array_vec_len path.old + length (given_path self.now) ≤ N → IsOk result }
        ensures ok { OnOk result (path.new.items ≡ path.old.items ++ given_path self.now) }
        ensures err { OnErr result (path.new.items ≡ path.old.items) }
    {
        let before = path.len();
        let appended = append_way(path, self.name, self.entered, self.stack.as_slice());
        if appended.is_err() {
            path.truncate(before);
        }
        appended
    }
}
