//! The members of owners.

ghost use Rattle.std.specs.Prelude.{◌≡◌, ◌≢◌, ℕ, ◌+◌, ◌<◌, ◌^◌, ◌==◌, [], length, position, IfOk, IfSome, IsSome, IsTrue, IsFalse};
ghost use Rattle.wf_words.specs.Keyed.{is_in};
ghost use Rattle.wf_links.specs.Lists.{list_of, lowest};
ghost use Rattle.wf_members.specs.Membership.{is_open, member_count, members_of, most_members, most_owners, open_count};
ghost use Rattle.wf_members.specs.Calls.{HasNone, Opens, Closes, Adds, Removes};
ghost use Rattle.wf_members.specs.Inside.{AreFree, moved};

use std::alloc::Global;
use std::marker::Model;
use wf_links::Links;
use wf_words::NoMemory;

/// The members of each open owner, where a member has one owner at most. Owners and members are told by their handles, which
/// are never 0. No call but `new` can lack memory, and none refuses.
///
/// Each owner has a place, and each member a node. The links have a list of nodes for each place, and at last the list of the
/// free nodes.
#[derive(Drop)]
pub struct Members {
    links: Links,
    members: Vec<u32>,
    owners: Vec<u32>,
}

impl Model for Members {
    ghost use Rattle.wf_members.specs.Membership.{Membership};

    ghost Value = { Membership };

    ghost use Rattle.wf_members.specs.Inside.{membership_of, IsKept};

    ghost view = { membership_of };

    ghost invariant = { IsKept };
}

impl Members {
    /// Makes room for `members` members, and for `owners` owners that are open at once. Nobody is open.
    pub fn new(alloc: Global, members: u32, owners: u32) -> Result<Members, NoMemory>
        requires { owners + 1 < 2 ^ 32 }
        ensures { IfOk result (HasNone members owners) }
    {
        Ok(Members {
            links: all_free(alloc, members, owners)?,
            members: vec![in alloc; 0; members as usize]?,
            owners: vec![in alloc; 0; owners as usize]?,
        })
    }

    /// Tells whether `owner` is open.
    pub fn is_open(&self, owner: u32) -> bool
        ensures { result ≡ is_open owner self.now }
    {
        owner != 0 && place_of(&self.owners, owner).is_some()
    }

    /// Tells whether some open owner has `member`.
    pub fn is_member(&self, member: u32) -> bool
        ensures somebodys { IsTrue result → (o : ℕ) × IsTrue (is_in member (members_of o self.now)) }
        ensures nobodys { IsFalse result → (o : ℕ) → IsFalse (is_in member (members_of o self.now)) }
    {
        member != 0 && place_of(&self.members, member).is_some()
    }

    /// Opens `owner`, which has no members then.
    pub fn open(&mut self, owner: u32)
        requires named { owner ≢ 0 }
        requires closed { IsFalse (is_open owner self.old) }
        requires room { open_count self.old < most_owners self.old }
        ensures { Opens owner self.old self.new }
    {
        let Some(place) = place_of(&self.owners, 0) else {
            unreachable!()
        };
        self.owners[place] = owner;
    }

    /// Closes `owner`, which has no members.
    pub fn close(&mut self, owner: u32)
        requires is_open { IsTrue (is_open owner self.old) }
        requires bare { members_of owner self.old ≡ [] }
        ensures { Closes owner self.old self.new }
    {
        let Some(place) = place_of(&self.owners, owner) else {
            unreachable!()
        };
        self.owners[place] = 0;
    }

    /// Gives the open `owner` the member `member`, which comes first of its members and was nobody's before.
    pub fn add(&mut self, owner: u32, member: u32)
        requires is_open { IsTrue (is_open owner self.old) }
        requires named { member ≢ 0 }
        requires nobodys { (o : ℕ) → IsFalse (is_in member (members_of o self.old)) }
        requires room { member_count self.old < most_members self.old }
        ensures { Adds owner member self.old self.new }
    {
        let Some(place) = place_of(&self.owners, owner) else {
            unreachable!()
        };
        let Some(node) = self.links.lowest(self.free()) else {
            unreachable!()
        };
        self.members[node as usize] = member;
        move_node(&mut self.links, node, place as u32);
    }

    /// Takes `member` from its owner.
    pub fn remove(&mut self, member: u32)
        requires { (o : ℕ) × IsTrue (is_in member (members_of o self.old)) }
        ensures { Removes member self.old self.new }
    {
        let Some(node) = place_of(&self.members, member) else {
            unreachable!()
        };
        let free = self.free();
        self.members[node] = 0;
        move_node(&mut self.links, node as u32, free);
    }

    /// Returns the first member of `owner`, the one that was added last. An owner that is not open has none.
    pub fn first(&self, owner: u32) -> Option<u32>
        ensures { result ≡ lowest (members_of owner self.now) }
    {
        let place = place_of(&self.owners, owner)?;
        let node = self.links.lowest(place as u32)?;
        Some(self.members[node as usize])
    }

    /// The list of the free nodes.
    fn free(&self) -> u32
        ensures { result ≡ length self.now.owners }
    {
        self.owners.len() as u32
    }
}

/// Where a handle stands first.
fn place_of(handles: &[u32], handle: u32) -> Option<usize>
    ensures place { result ≡ position (λ x. x == handle) handles.now }
    ensures within { IfSome result (λ place. place < length handles.now) }
{
    handles.iter().position(|other| *other == handle)
}

/// Links of so many nodes, with a list for each owner and one more, in which all nodes stand.
fn all_free(alloc: Global, nodes: u32, owners: u32) -> Result<Links, NoMemory>
    requires { owners + 1 < 2 ^ 32 }
    ensures { IfOk result (AreFree nodes owners) }
{
    let mut links = Links::new(alloc, nodes, owners + 1)?;
    for free in 0..nodes {
        links.insert_above(owners, free, None);
    }
    Ok(links)
}

/// Moves a node from its list into another, in which it is lowest.
fn move_node(links: &mut Links, node: u32, list: u32)
    requires node { node < links.old.nodes }
    requires list { list < length links.old.lists }
    requires somewhere { IsSome (list_of node links.old.lists) }
    ensures { links.new ≡ record links.old { lists = moved node list links.old.lists } }
{
    links.remove(node);
    links.insert_above(list, node, None);
}
