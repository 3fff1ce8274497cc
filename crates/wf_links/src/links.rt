//! Several ordered lists over one set of nodes.

ghost use Rattle.std.specs.Prelude.{◌≡◌, ◌<◌, IfOk, IsSome, [], length, replicate};
ghost use Rattle.std.specs.Option.{ForSome};
ghost use Rattle.wf_links.specs.Lists.{IsOrderly, list_at, list_of, above, below, lowest, inserted, removed};

use std::alloc::Global;
use std::marker::Model;
use wf_words::NoMemory;

/// The list that a node is in, and its neighbours there.
#[derive(Clone, Copy)]
struct Node {
    list: Option<u32>,
    below: Option<u32>,
    above: Option<u32>,
}

impl Node {
    /// A node in no list.
    const FREE: Node = Node {
        list: None,
        below: None,
        above: None,
    };
}

/// Several ordered lists over one set of nodes, of which each is in one list at most. Nodes and lists are numbered from 0.
/// No call but `new` can lack memory, and none goes along a list.
#[derive(Drop)]
pub struct Links {
    nodes: Vec<Node>,
    lowest: Vec<Option<u32>>,
}

impl Model for Links {
    ghost use Rattle.wf_links.specs.Lists.{NodeLists};

    ghost Value = { NodeLists };

    ghost use Rattle.wf_links.specs.Inside.{lists_of, IsSound};

    ghost view = { lists_of };

    ghost invariant = { IsSound };
}

impl Links {
    /// Makes `nodes` nodes, counted from 1, and `lists` lists, all of them empty.
    pub fn new(alloc: Global, nodes: u32, lists: u32) -> Result<Links, NoMemory>
        ensures made { IfOk result (λ made. made ≡ record { nodes = nodes; lists = replicate lists [] }) }
        ensures orderly { IfOk result IsOrderly }
    {
        let nodes = vec![in alloc; Node::FREE; nodes as usize]?;
        let lowest = vec![in alloc; None; lists as usize]?;
        Ok(Links { nodes, lowest })
    }

    /// Puts `node` into `list`, directly above `below`, or lowest where that is None.
    pub fn insert_above(&mut self, list: u32, node: u32, below: Option<u32>)
        requires list { list < length self.old.lists }
        requires node { node < self.old.nodes }
        requires free { list_of node self.old.lists ≡ None }
        requires below { ForSome below (λ base. list_of base self.old.lists ≡ Some list) }
        ensures inserted { self.new ≡ record self.old { lists = inserted list node below self.old.lists } }
        ensures orderly { IsOrderly self.new }
    {
        let above = next_up(&self.nodes, &self.lowest, list, below);
        self.nodes[node as usize] = Node {
            list: Some(list),
            below,
            above,
        };
        set_above(&mut self.nodes, &mut self.lowest, list, below, Some(node));
        set_below(&mut self.nodes, above, Some(node));
    }

    /// Takes `node` out of its list.
    pub fn remove(&mut self, node: u32)
        requires { IsSome (list_of node self.old.lists) }
        ensures removed { self.new ≡ record self.old { lists = removed node self.old.lists } }
        ensures orderly { IsOrderly self.new }
    {
        let Node { list, below, above } = self.nodes[node as usize];
        let Some(list) = list else {
            return;
        };
        self.nodes[node as usize] = Node::FREE;
        set_above(&mut self.nodes, &mut self.lowest, list, below, above);
        set_below(&mut self.nodes, above, below);
    }

    /// Returns the node directly above `node` in its list.
    pub fn above(&self, node: u32) -> Option<u32>
        requires { IsSome (list_of node self.now.lists) }
        ensures above { result ≡ above node self.now.lists }
        ensures orderly { IsOrderly self.now }
    {
        self.nodes[node as usize].above
    }

    /// Returns the node directly below `node` in its list.
    pub fn below(&self, node: u32) -> Option<u32>
        requires { IsSome (list_of node self.now.lists) }
        ensures below { result ≡ below node self.now.lists }
        ensures orderly { IsOrderly self.now }
    {
        self.nodes[node as usize].below
    }

    /// Returns the lowest node of `list`.
    pub fn lowest(&self, list: u32) -> Option<u32>
        requires { list < length self.now.lists }
        ensures lowest { result ≡ lowest (list_at list self.now.lists) }
        ensures orderly { IsOrderly self.now }
    {
        self.lowest[list as usize]
    }

    /// Returns the list that `node` is in.
    pub fn list_of(&self, node: u32) -> Option<u32>
        requires { node < self.now.nodes }
        ensures list { result ≡ list_of node self.now.lists }
        ensures orderly { IsOrderly self.now }
    {
        self.nodes[node as usize].list
    }
}

ghost use Rattle.wf_links.specs.Inside.{next_up, with_above, with_below, with_lowest};

/// What stands directly above a node, or lowest in a list where no node is given.
fn next_up(nodes: &[Node], lowest: &[Option<u32>], list: u32, node: Option<u32>) -> Option<u32>
    requires list { list < length lowest.now }
    requires node { ForSome node (λ n. n < length nodes.now) }
    ensures { result ≡ next_up nodes.now lowest.now list node }
{
    match node {
        Some(node) => nodes[node as usize].above,
        None => lowest[list as usize],
    }
}

/// Tells a node what stands directly above it now, or the list what is lowest where no node is given.
fn set_above(
    nodes: &mut [Node],
    lowest: &mut [Option<u32>],
    list: u32,
    node: Option<u32>,
    above: Option<u32>,
)
    requires list { list < length lowest.old }
    requires node { ForSome node (λ n. n < length nodes.old) }
    ensures nodes { nodes.new ≡ with_above node above nodes.old }
    ensures lowest { lowest.new ≡ with_lowest list node above lowest.old }
{
    match node {
        Some(node) => nodes[node as usize].above = above,
        None => lowest[list as usize] = above,
    }
}

/// Tells a node, where one is given, what stands directly below it now.
fn set_below(nodes: &mut [Node], node: Option<u32>, below: Option<u32>)
    requires { ForSome node (λ n. n < length nodes.old) }
    ensures { nodes.new ≡ with_below node below nodes.old }
{
    if let Some(node) = node {
        nodes[node as usize].below = below;
    }
}
