//! Lists whose calls are made only where their conditions hold.

ghost use Rattle.std.specs.Prelude.{◌≡◌, length, IsSome};
ghost use Rattle.std.specs.Bool.{OnTrue};
ghost use Rattle.wf_links.specs.Lists.{list_of};

use std::alloc::Global;
use wf_links::Links;

/// Links, and how many nodes and lists they have.
#[derive(Drop)]
pub struct Linked {
    links: Links,
    nodes: u32,
    lists: u32,
    ghost nodes_counted: { links.nodes ≡ nodes },
    ghost lists_counted: { length links.lists ≡ lists },
}

impl Linked {
    /// So many nodes and lists, or None where there is no memory for them.
    pub fn new(alloc: Global, nodes: u32, lists: u32) -> Option<Linked> {
        match Links::new(alloc, nodes, lists) {
            Ok(links) => Some(Linked {
                links,
                nodes,
                lists,
            }),
            Err(_) => None,
        }
    }

    /// How many nodes there are.
    pub fn nodes(&self) -> u32 {
        self.nodes
    }

    /// Puts a node into a list, if it is in none, and the node below it, where one is given, is in this list.
    pub fn insert(&mut self, list: u32, node: u32, below: Option<u32>) -> bool {
        let fits = match below {
            Some(base) => base < self.nodes && self.links.list_of(base) == Some(list),
            None => true,
        };
        if !fits || list >= self.lists || node >= self.nodes || self.links.list_of(node).is_some() {
            return false;
        }
        self.links.insert_above(list, node, below);
        true
    }

    /// Takes a node out of its list, if it is in one.
    pub fn remove(&mut self, node: u32) -> bool {
        let stands = self.stands(node);
        if stands {
            self.links.remove(node);
        }
        stands
    }

    /// Whether a node is in a list.
    fn stands(&self, node: u32) -> bool
        ensures { OnTrue result (IsSome (list_of node self.now.links.lists)) }
    {
        node < self.nodes && self.links.list_of(node).is_some()
    }

    /// The node above one that is in a list.
    pub fn above(&self, node: u32) -> Option<Option<u32>> {
        if self.stands(node) {
            Some(self.links.above(node))
        } else {
            None
        }
    }

    /// The node below one that is in a list.
    pub fn below(&self, node: u32) -> Option<Option<u32>> {
        if self.stands(node) {
            Some(self.links.below(node))
        } else {
            None
        }
    }

    /// The lowest node of a list, if there is such a list.
    pub fn lowest(&self, list: u32) -> Option<Option<u32>> {
        if list < self.lists {
            Some(self.links.lowest(list))
        } else {
            None
        }
    }

    /// The list of a node, if there is such a node.
    pub fn list_of(&self, node: u32) -> Option<Option<u32>> {
        if node < self.nodes {
            Some(self.links.list_of(node))
        } else {
            None
        }
    }

    /// The lowest node of a list that has one.
    pub fn bottom(&self, list: u32) -> Option<u32> {
        self.lowest(list).unwrap_or(None)
    }

    /// The highest node of a list that has one.
    pub fn top(&self, list: u32) -> Option<u32> {
        let mut top = self.bottom(list);
        for _ in 0..self.nodes {
            let Some(higher) = top.and_then(|node| self.next(node, true)) else {
                break;
            };
            top = Some(higher);
        }
        top
    }

    /// The node above another, or below it.
    pub fn next(&self, node: u32, up: bool) -> Option<u32> {
        let next = if up {
            self.above(node)
        } else {
            self.below(node)
        };
        next.unwrap_or(None)
    }
}
