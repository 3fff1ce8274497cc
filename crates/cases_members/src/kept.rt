//! Members whose calls are made only where their conditions hold.

ghost use Rattle.std.specs.Prelude.{◌≡◌};
ghost use Rattle.wf_members.specs.Membership.{member_count, most_members, most_owners, open_count};

use std::alloc::Global;
use wf_members::Members;

/// Members, with how many owners are open and how many members there are, and with both limits.
#[derive(Drop)]
pub struct Kept {
    members: Members,
    opened: u32,
    count: u32,
    owners: u32,
    most: u32,
    ghost opened_counted: { open_count members ≡ opened },
    ghost members_counted: { member_count members ≡ count },
    ghost owners_limited: { most_owners members ≡ owners },
    ghost members_limited: { most_members members ≡ most },
}

impl Kept {
    /// Room for so many members and owners, or None where there is no memory for them.
    pub fn new(alloc: Global, most: u32, owners: u32) -> Option<Kept> {
        if owners == u32::MAX {
            return None;
        }
        match Members::new(alloc, most, owners) {
            Ok(members) => Some(Kept {
                members,
                opened: 0,
                count: 0,
                owners,
                most,
            }),
            Err(_) => None,
        }
    }

    /// How many members there may be.
    pub fn most(&self) -> u32 {
        self.most
    }

    /// Opens an owner that is not open, if there is room.
    pub fn open(&mut self, owner: u32) -> bool {
        if owner == 0 || self.members.is_open(owner) || self.opened >= self.owners {
            return false;
        }
        self.members.open(owner);
        self.opened += 1;
        true
    }

    /// Closes an owner that is open and has no members.
    pub fn close(&mut self, owner: u32) -> bool {
        if !self.members.is_open(owner) || self.members.first(owner).is_some() {
            return false;
        }
        self.members.close(owner);
        self.opened -= 1;
        true
    }

    /// Gives an open owner a member that is nobody's, if there is room.
    pub fn add(&mut self, owner: u32, member: u32) -> bool {
        if !self.members.is_open(owner)
            || member == 0
            || self.members.is_member(member)
            || self.count >= self.most
        {
            return false;
        }
        self.members.add(owner, member);
        self.count += 1;
        true
    }

    /// Takes a member from its owner, if it has one.
    pub fn remove(&mut self, member: u32) -> bool {
        if !self.members.is_member(member) {
            return false;
        }
        self.members.remove(member);
        self.count -= 1;
        true
    }

    /// The first member of an owner.
    pub fn first(&self, owner: u32) -> Option<u32> {
        self.members.first(owner)
    }

    /// Whether an owner is open.
    pub fn is_open(&self, owner: u32) -> bool {
        self.members.is_open(owner)
    }

    /// Whether a member is somebody's.
    pub fn is_member(&self, member: u32) -> bool {
        self.members.is_member(member)
    }
}
