// What a query asks for.
use byte_text::Text;
use sqlite_items::Items;

/// The queries of one clause of a `bool`, in order.
pub type Clauses = Items<Query>;

/// What a search asks of each document of a segment. Clauses speak of it by its tree.
#[derive(Drop)]
pub enum Query {
    /// Every document matches.
    MatchAll,
    /// Documents match whose `field` has the term `value`.
    Term {
        field: Text,
        value: Text,
    },
    /// Documents match that every query of `must` and `filter` matches, none of `must_not` does, and at least
    /// `minimum` queries of `should` do, each counted once per place in the list. Without a minimum it is 1 where
    /// `should` is not empty and `must` and `filter` are, and 0 otherwise.
    Bool {
        must: Clauses,
        filter: Clauses,
        should: Clauses,
        must_not: Clauses,
        minimum: Option<u64>,
    },
}
