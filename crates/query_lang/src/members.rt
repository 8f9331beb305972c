// The members of a `bool`.
ghost use Rattle.std.specs.Prelude.{◌≡◌, map, option_map, IsTrue, IfSome};
ghost use Rattle.query_lang.specs.Trees.{tree_of, is_text, AreTexts};
ghost use Rattle.query_lang.specs.Reading.{with_member, no_parts, parts_of, compound_of};

use crate::{Clauses, Query};
use std::alloc::Global;

/// What the members of a `bool` that were read so far say.
#[derive(Drop)]
pub(crate) struct BoolParts {
    must: Clauses,
    filter: Clauses,
    should: Clauses,
    must_not: Clauses,
    minimum: Option<u64>,
}

impl BoolParts {
    /// No member was read.
    pub(crate) fn new(alloc: Global) -> BoolParts
        ensures { parts_of result ≡ no_parts }
    {
        BoolParts {
            must: Clauses::new(alloc),
            filter: Clauses::new(alloc),
            should: Clauses::new(alloc),
            must_not: Clauses::new(alloc),
            minimum: None,
        }
    }

    /// Puts in the member of this key, which is a clause list, a whole number or neither; None where it is not of
    /// its key's form, or where a `bool` has no member of this key.
    pub(crate) fn with_member(
        self,
        key: &str,
        list: Option<Clauses>,
        number: Option<u64>,
    ) -> Option<BoolParts>
        ensures member { option_map parts_of result
            ≡ with_member (parts_of self) key.now (option_map (map tree_of) list) number }
        ensures text { IsTrue (is_text (compound_of (parts_of self))) → AreTexts list
            → IfSome result (λ p. IsTrue (is_text (compound_of (parts_of p)))) }
    {
        match key {
            "must" => Some(BoolParts {
                must: list?,
                ..self
            }),
            "filter" => Some(BoolParts {
                filter: list?,
                ..self
            }),
            "should" => Some(BoolParts {
                should: list?,
                ..self
            }),
            "must_not" => Some(BoolParts {
                must_not: list?,
                ..self
            }),
            "minimum_should_match" => Some(BoolParts {
                minimum: Some(number?),
                ..self
            }),
            _ => None,
        }
    }

    pub(crate) fn into_query(self) -> Query
        ensures { tree_of result ≡ compound_of (parts_of self) }
    {
        Query::Bool {
            must: self.must,
            filter: self.filter,
            should: self.should,
            must_not: self.must_not,
            minimum: self.minimum,
        }
    }
}
