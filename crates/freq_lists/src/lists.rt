//! Lists of node numbers, one list for each frequency; each call takes the same few steps, however long they are.

ghost use Rattle.std.specs.Prelude.{◌≡◌, ◌<◌, ◌≤◌, ◌+◌, ℕ, IfOk, IfSome, [], not, ◌==◌, length, replicate};
ghost use Rattle.freq_lists.specs.Lists.{ListsView, push_back, unlink, front, next, list_of, list_at, times};

use crate::links::{Ends, Node, set_before, set_behind};
use std::alloc::{AllocError, Global};
use std::marker::Model;

/// A fixed number of lists of node numbers. Each node is in one list at most. Clauses see the number of nodes and
/// the lists, each a list of node numbers from its front. Each call but `new` takes the same few steps, however many
/// nodes there are.
#[derive(Drop)]
pub struct FreqLists {
    nodes: Vec<Node>,
    ends: Vec<Ends>,
}

impl Model for FreqLists {
    ghost use Rattle.std.specs.Prelude.{length};
    ghost use Rattle.freq_lists.specs.Lists.{ListsView};
    ghost use Rattle.freq_lists.specs.Links.{IsLinked, walked};

    ghost Value = { ListsView };

    ghost view = { λ f. record { nodes = length f.nodes.items; lists = walked f.nodes.items f.ends.items } };

    ghost invariant = { λ f. IsLinked f.nodes.items f.ends.items (walked f.nodes.items f.ends.items) };
}

impl FreqLists {
    /// So many empty lists for the nodes 0 up to `nodes`. It takes all the memory that the lists ever need.
    pub fn new(alloc: Global, nodes: u32, lists: u32) -> Result<FreqLists, AllocError>
        ensures { IfOk result (λ f. f ≡ record { nodes = nodes; lists = replicate lists [] }) }
    {
        let free = Node {
            previous: None,
            next: None,
            list: None,
        };
        let empty = Ends {
            first: None,
            last: None,
        };
        Ok(FreqLists {
            nodes: vec![in alloc; free; nodes as usize]?,
            ends: vec![in alloc; empty; lists as usize]?,
        })
    }

    /// Puts a node that is in no list at the back of one.
    pub fn push_back(&mut self, list: u32, node: u32)
        requires list { list < length self.old.lists }
        requires node { node < self.old.nodes }
        requires free { times node self.old.lists ≡ 0 }
        ensures lists { self.new ≡ record self.old { lists = push_back list node self.old.lists } }
        ensures count { length self.new.lists ≡ length self.old.lists }
    {
        let last = self.ends[list as usize].last;
        self.nodes[node as usize] = Node {
            previous: last,
            next: None,
            list: Some(list),
        };
        set_behind(&mut self.nodes, &mut self.ends, list, last, Some(node));
        set_before(&mut self.nodes, &mut self.ends, list, None, Some(node));
    }

    /// Takes a node out of its list. The others keep their order.
    pub fn unlink(&mut self, node: u32)
        requires { 0 < times node self.old.lists }
        ensures lists { self.new ≡ record self.old { lists = unlink node self.old.lists } }
        ensures count { length self.new.lists ≡ length self.old.lists }
    {
        let links = self.nodes[node as usize];
        let Some(list) = links.list else { return };
        let (previous, next) = (links.previous, links.next);
        set_behind(&mut self.nodes, &mut self.ends, list, previous, next);
        set_before(&mut self.nodes, &mut self.ends, list, next, previous);
        self.nodes[node as usize] = Node {
            previous: None,
            next: None,
            list: None,
        };
    }

    /// The first node of a list, or None exactly where it is empty.
    pub fn front(&self, list: u32) -> Option<u32>
        requires { list < length self.now.lists }
        ensures { result ≡ front list self.now.lists }
    {
        self.ends[list as usize].first
    }

    /// The node behind this one in its list, or None exactly where it is the last.
    pub fn next(&self, node: u32) -> Option<u32>
        requires { 0 < times node self.now.lists }
        ensures { result ≡ next node self.now.lists }
    {
        self.nodes[node as usize].next
    }

    /// The number of the list that has the node, or None exactly where none has it.
    pub fn list_of(&self, node: u32) -> Option<u32>
        requires { node < self.now.nodes }
        ensures list { result ≡ list_of node self.now.lists }
        ensures range { IfSome result (λ k. k < length self.now.lists) }
    {
        self.nodes[node as usize].list
    }

    /// What is true of every value: no node stands twice, each is in range, and no list is longer than the number of
    /// nodes. A call does nothing else than tell it.
    pub fn lesson(&self)
        ensures once { (n : ℕ) → times n self.now.lists ≤ 1 }
        ensures range { (n : ℕ) → 0 < times n self.now.lists → n < self.now.nodes }
        ensures short { (k : ℕ) → length (list_at k self.now.lists) ≤ self.now.nodes }
        ensures few { (self.now.nodes < 4294967296) × (length self.now.lists < 4294967296) }
    {
        let _ = &self.nodes;
    }
}
