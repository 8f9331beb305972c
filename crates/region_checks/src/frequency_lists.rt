//! The lists with links against plain lists, by drawn calls.

ghost use Rattle.std.specs.Prelude.{◌≡◌, ◌<◌, IfSome, length};

use crate::draws::Draws;
use freq_lists::FreqLists;
use std::alloc::AllocError;

const NODES: u32 = 12;

const LISTS: u32 = 4;

// A node that is in a list, and that list's number.
#[derive(Clone, Copy)]
struct Entry {
    list: u32,
    node: u32,
}

// The nodes that are in a list, in the order of their last `push_back`, each search a walk through them.
#[derive(Drop)]
struct PlainLists {
    entries: Vec<Entry>,
}

impl PlainLists {
    fn push_back(&mut self, list: u32, node: u32) -> Result<(), AllocError> {
        self.entries.push(Entry { list, node })?;
        Ok(())
    }

    fn unlink(&mut self, node: u32) {
        self.entries.retain(|entry| entry.node != node);
    }

    fn front(&self, list: u32) -> Option<u32> {
        first_of(&self.entries, list)
    }

    fn next(&self, node: u32) -> Option<u32> {
        let place = place_of(&self.entries, node)?;
        first_of(&self.entries[place + 1..], self.entries[place].list)
    }

    fn list_of(&self, node: u32) -> Option<u32> {
        let place = place_of(&self.entries, node)?;
        Some(self.entries[place].list)
    }
}

fn place_of(entries: &[Entry], node: u32) -> Option<usize>
    ensures { IfSome result (λ i. i < length entries.now) }
{
    for (i, entry) in entries.iter().enumerate() {
        if entry.node == node {
            return Some(i);
        }
    }
    None
}

fn first_of(entries: &[Entry], list: u32) -> Option<u32> {
    for entry in entries {
        if entry.list == list {
            return Some(entry.node);
        }
    }
    None
}

// The lists under test: four lists over twelve nodes.
#[derive(Drop)]
struct Links {
    lists: FreqLists,
    ghost size: { (lists.nodes ≡ 12) × (length lists.lists ≡ 4) },
}

impl Links {
    // A push of a drawn node to a drawn list where it is in none, and else its removal.
    #[tactic(auto, using(crate::proofs::Listed::free, crate::proofs::Listed::listed))]
    fn change(&mut self, plain: &mut PlainLists, list: u32, node: u32) -> Result<(), AllocError>
        requires { (list < 4) × (node < 12) }
    {
        match self.lists.list_of(node) {
            None => {
                self.lists.push_back(list, node);
                plain.push_back(list, node)
            }
            Some(_) => {
                self.lists.unlink(node);
                plain.unlink(node);
                Ok(())
            }
        }
    }

    // What stands behind the node.
    #[tactic(auto, using(crate::proofs::Listed::listed))]
    fn behind(&self, node: u32) -> Option<u32> {
        if node >= NODES {
            return None;
        }
        match self.lists.list_of(node) {
            None => None,
            Some(_) => self.lists.next(node),
        }
    }

    // Whether the list of that number is the same in both, from its front to its end.
    fn has_same_list(&self, plain: &PlainLists, list: u32) -> bool
        requires { list < 4 }
    {
        let mut at = self.lists.front(list);
        let mut other = plain.front(list);
        for _ in 0..NODES + 1 {
            let (Some(node), Some(same)) = (at, other) else {
                return at.is_none() && other.is_none();
            };
            if node != same {
                return false;
            }
            at = self.behind(node);
            other = plain.next(node);
        }
        false
    }

    // Whether all lists are the same in both, and each node's list.
    fn are_same(&self, plain: &PlainLists) -> bool {
        for list in 0..LISTS {
            if !self.has_same_list(plain, list) {
                return false;
            }
        }
        for node in 0..NODES {
            if self.lists.list_of(node) != plain.list_of(node) {
                return false;
            }
        }
        true
    }
}

fn crosses<T: Send + Sync>() {}

#[test]
fn links_are_as_plain_lists(rt: HostRuntime) -> Result<(), AllocError> {
    crosses::<FreqLists>();
    let mut links = Links {
        lists: FreqLists::new(rt.alloc(), NODES, LISTS)?,
    };
    let mut plain = PlainLists {
        entries: Vec::new(rt.alloc()),
    };
    let mut draws = Draws { state: 1 };
    for call in 0..10_000 {
        let list = draws.below(LISTS);
        let node = draws.below(NODES);
        links.change(&mut plain, list, node)?;
        assert!(rt; links.are_same(&plain), "call {call}");
    }
    Ok(())
}
