//! Several things, of which the first ones are said one by one.

/// How many things may still be said, and how many more there are than that.
#[derive(Clone, Copy)]
pub struct Several {
    left: u64,
    more: u64,
}

impl Several {
    /// Returns that at most this many things are said.
    pub fn new(most: u64) -> Several {
        Several {
            left: most,
            more: 0,
        }
    }

    /// Returns whether the next thing is said. If it is not, it counts as one more.
    pub fn says(&mut self) -> bool {
        if self.left == 0 {
            self.more = self.more.saturating_add(1);
            return false;
        }
        self.left -= 1;
        true
    }

    /// Returns how many more things there are than were said, if there are.
    pub fn more(&self) -> Option<u64> {
        if self.more > 0 { Some(self.more) } else { None }
    }
}
