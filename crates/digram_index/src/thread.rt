// What stands at a place of a list, and how it is kept in twelve bytes.
ghost use Rattle.std.specs.Prelude.{◌≡◌, ◌<◌, ◌^◌, ℕ, Some};
ghost use Rattle.digram_index.specs.Packing.{place_from, group_from, IsSmall, IsPackable};

use std::marker::Model;

/// There are at most so many items, and as many groups.
pub const MOST: usize = 2147483648;

/// A place of a list: an item, or the list's ends, which both are its group.
#[derive(Clone, Copy, Drop)]
pub enum Place {
    Item(usize),
    Group(usize),
}

/// What stands at a place: the group, and the places before and after it.
#[derive(Clone, Copy, Drop)]
pub struct Thread {
    pub group: Option<usize>,
    pub before: Place,
    pub after: Place,
}

/// A thread by numbers. From `MOST` on they stand for no group, and for places that are groups.
#[derive(Drop)]
pub struct PackedThread {
    group: u32,
    before: u32,
    after: u32,
}

impl Model for PackedThread {
    ghost use Rattle.digram_index.specs.declared.thread.Thread.{Thread};
    ghost use Rattle.digram_index.specs.Packing.{place_from, group_from};

    ghost Value = { Thread };

    ghost view = { λ p. record {
      group = group_from p.group;
      before = place_from p.before;
      after = place_from p.after;
    } };
}

impl PackedThread {
    /// The numbers of a thread.
    pub fn new(thread: Thread) -> PackedThread
        requires { IsPackable thread }
        ensures { result ≡ thread }
    {
        PackedThread {
            group: pack_group(thread.group),
            before: pack(thread.before),
            after: pack(thread.after),
        }
    }

    /// The thread of the numbers.
    pub fn thread(&self) -> Thread
        ensures value { result ≡ self.now }
        ensures packable { IsPackable result }
    {
        Thread {
            group: unpack_group(self.group),
            before: unpack(self.before),
            after: unpack(self.after),
        }
    }
}

fn pack(place: Place) -> u32
    requires { IsSmall place }
    ensures { place_from result ≡ place }
{
    match place {
        Place::Item(item) => item as u32,
        Place::Group(group) => (MOST + group) as u32,
    }
}

fn unpack(number: u32) -> Place
    ensures value { result ≡ place_from number }
    ensures small { IsSmall result }
{
    let number = number as usize;
    if number < MOST {
        Place::Item(number)
    } else {
        Place::Group(number - MOST)
    }
}

fn pack_group(group: Option<usize>) -> u32
    requires { (g : ℕ) → group ≡ Some g → g < 2 ^ 31 }
    ensures { group_from result ≡ group }
{
    match group {
        Some(group) => group as u32,
        None => MOST as u32,
    }
}

fn unpack_group(number: u32) -> Option<usize>
    ensures value { result ≡ group_from number }
    ensures small { (g : ℕ) → result ≡ Some g → g < 2 ^ 31 }
{
    let number = number as usize;
    if number < MOST { Some(number) } else { None }
}
