//! The links between the nodes of a list, and from a list to its ends.

ghost use Rattle.std.specs.Prelude.{◌≡◌, ◌<◌, IfSome, length};
ghost use Rattle.freq_lists.specs.Links.{with_next, with_first, with_previous, with_last};

// A node's neighbours and the number of its list, or nothing where it is in no list.
#[derive(Clone, Copy)]
pub struct Node {
    pub previous: Option<u32>,
    pub next: Option<u32>,
    pub list: Option<u32>,
}

// The first and the last node of a list, or nothing where it is empty.
#[derive(Clone, Copy)]
pub struct Ends {
    pub first: Option<u32>,
    pub last: Option<u32>,
}

// Lets `next` stand behind the previous node, or at the front of the list where there is no previous node.
pub fn set_behind(
    nodes: &mut Vec<Node>,
    ends: &mut Vec<Ends>,
    list: u32,
    previous: Option<u32>,
    next: Option<u32>,
)
    requires list { list < length ends.old.items }
    requires node { IfSome previous (λ p. p < length nodes.old.items) }
    ensures nodes { nodes.new.items ≡ with_next previous next nodes.old.items }
    ensures ends { ends.new.items ≡ with_first previous next list ends.old.items }
{
    match previous {
        Some(previous) => nodes[previous as usize].next = next,
        None => ends[list as usize].first = next,
    }
}

// Lets `previous` stand before the next node, or at the back of the list where there is no next node.
pub fn set_before(
    nodes: &mut Vec<Node>,
    ends: &mut Vec<Ends>,
    list: u32,
    next: Option<u32>,
    previous: Option<u32>,
)
    requires list { list < length ends.old.items }
    requires node { IfSome next (λ q. q < length nodes.old.items) }
    ensures nodes { nodes.new.items ≡ with_previous next previous nodes.old.items }
    ensures ends { ends.new.items ≡ with_last next previous list ends.old.items }
{
    match next {
        Some(next) => nodes[next as usize].previous = previous,
        None => ends[list as usize].last = previous,
    }
}
