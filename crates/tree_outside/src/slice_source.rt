// A source of bytes that are there.
ghost use Rattle.std.specs.Prelude.{◌≡◌, ◌≤◌, ◌<◌, Some, length, IfOk, IsOk};
ghost use Rattle.tree_outside.specs.Outside.{HasCause, Reads};

use crate::unread::copy_front;
use crate::{Failed, Source};
use std::marker::Model;

/// A source of bytes that somebody else holds. It tells the bytes that are left, and never fails.
#[derive(Drop)]
pub struct SliceSource<'a> {
    left: &'a [u8],
}

impl<'a> Model for SliceSource<'a> {
    ghost use Rattle.std.specs.Prelude.{List, ℕ};

    ghost Value = { List ℕ };

    ghost view = { λ s. s.left.now };
}

impl<'a> SliceSource<'a> {
    /// A source of these bytes. It takes no memory.
    pub fn new(bytes: &'a [u8]) -> SliceSource<'a>
        ensures { result ≡ bytes.now }
    {
        SliceSource { left: bytes }
    }
}

impl<'a> Source for SliceSource<'a> {
    ghost left = { λ s. Some s };

    ghost faults = { λ _. 0 };

    fn read(&mut self, buf: &mut [u8]) -> Result<usize, Failed>
        requires { 0 < length buf.old }
        ensures count { IfOk result (λ n. n ≤ length buf.new) }
        ensures content { Reads (Some self.old) (Some self.new) result buf.new }
        ensures cause { HasCause 0 0 result }
        ensures succeeds { IsOk result }
    {
        let count = copy_front(self.left, usize::MAX, buf);
        self.left = &self.left[count..];
        Ok(count)
    }
}
