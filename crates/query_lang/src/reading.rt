// Reading a query.
ghost use Rattle.std.specs.Prelude.{◌≡◌, map, option_map, IfOk, IfSome, IsTrue, min, ◌^◌, ◌-◌};
ghost use Rattle.serde_json.specs.View.{view, items_view};
ghost use Rattle.mount_manifest.specs.Json.{json_of};
ghost use Rattle.query_lang.specs.Trees.{match_all, term, depth, deepest, tree_of, trees_of, is_text, IsTextOf, AreTexts};
ghost use Rattle.query_lang.specs.Reading.{query, IsRead, IsJson, empty_form, value_text, term_form, form, bool_form};
ghost use Rattle.query_lang.specs.Reading.{forms, first_of, list_form, one_tree, only};

use crate::members::BoolParts;
use crate::{Clauses, Query, QueryError};
use byte_text::Text;
use serde_json::Value;
use std::alloc::{AllocError, Global};

/// How deep the `bool` queries of a query may nest.
const DEEPEST: u64 = 32;

/// The member of an object of exactly one member.
fn only_member(value: &Value) -> Option<(&str, &Value)>
    ensures { option_map (λ p. (p.0.now, view p.1.now)) result ≡ only (view value.now) }
{
    let map = value.as_object()?;
    if map.len() != 1 {
        return None;
    }
    let (key, inner) = map.first_key_value()?;
    Some((key.as_str(), inner))
}

fn match_all() -> Query
    ensures { tree_of result ≡ match_all }
{
    Query::MatchAll
}

/// The query of `match_all`, whose value is an empty object.
fn empty_query(value: &Value) -> Option<Query>
    ensures { option_map tree_of result ≡ empty_form (view value.now) }
{
    let map = value.as_object()?;
    if map.len() != 0 {
        return None;
    }
    Some(match_all())
}

/// A term's value: a string, or an object whose one member `value` is a string.
fn value_member(value: &Value) -> Option<&str>
    ensures { option_map (λ s. s.now) result ≡ value_text (view value.now) }
{
    if let Some(text) = value.as_str() {
        return Some(text);
    }
    let (key, inner) = only_member(value)?;
    if key != "value" {
        return None;
    }
    inner.as_str()
}

fn term(field: Text, value: Text) -> Query
    ensures { tree_of result ≡ term field value }
{
    Query::Term { field, value }
}

fn term_of(alloc: Global, field: &str, value: &str) -> Result<Query, AllocError>
    ensures term { IfOk result (λ q. tree_of q ≡ term field.now value.now) }
    ensures text { IfOk result (λ q. IsTrue (is_text (tree_of q))) }
{
    let field = Text::of(alloc, field.as_bytes())?;
    let value = Text::of(alloc, value.as_bytes())?;
    Ok(term(field, value))
}

fn term_query(alloc: Global, value: &Value) -> Result<Option<Query>, AllocError>
    ensures form { IfOk result (λ o. option_map tree_of o ≡ term_form (view value.now)) }
    ensures text { IfOk result IsTextOf }
{
    let Some((field, inner)) = only_member(value) else {
        return Ok(None);
    };
    let Some(text) = value_member(inner) else {
        return Ok(None);
    };
    Ok(Some(term_of(alloc, field, text)?))
}

/// The query that a value is, or None.
#[cycle(reads)]
#[tactic(auto, using(crate::proofs::Forms::form_is, crate::proofs::Forms::not_named))]
fn form(alloc: Global, value: &Value) -> Result<Option<Query>, AllocError>
    ensures form { IfOk result (λ o. option_map tree_of o ≡ form (view value.now)) }
    ensures text { IfOk result IsTextOf }
{
    let Some((key, inner)) = only_member(value) else {
        return Ok(None);
    };
    match key {
        "match_all" => Ok(empty_query(inner)),
        "term" => term_query(alloc, inner),
        "bool" => bool_query(alloc, inner),
        _ => Ok(None),
    }
}

#[cycle(reads)]
fn bool_query(alloc: Global, value: &Value) -> Result<Option<Query>, AllocError>
    ensures form { IfOk result (λ o. option_map tree_of o ≡ bool_form (view value.now)) }
    ensures text { IfOk result IsTextOf }
{
    let Some(map) = value.as_object() else {
        return Ok(None);
    };
    let mut parts = BoolParts::new(alloc);
    for (key, member) in map {
        let list = clause_list(alloc, member)?;
        let Some(more) = parts.with_member(key, list, member.as_u64()) else {
            return Ok(None);
        };
        parts = more;
    }
    Ok(Some(parts.into_query()))
}

/// The queries of an array, or the one query that a value is.
#[cycle(reads)]
fn clause_list(alloc: Global, value: &Value) -> Result<Option<Clauses>, AllocError>
    ensures form { IfOk result (λ o. option_map (map tree_of) o
        ≡ first_of (list_form (view value.now)) (one_tree (form (view value.now)))) }
    ensures text { IfOk result AreTexts }
{
    if let Some(list) = value.as_array() {
        return forms(alloc, list);
    }
    let Some(query) = form(alloc, value)? else {
        return Ok(None);
    };
    let mut one = Clauses::new(alloc);
    one.push(query)?;
    Ok(Some(one))
}

#[cycle(reads)]
#[tactic(auto, using(crate::proofs::Forms::one_more, crate::proofs::Only::depth_below))]
fn forms(alloc: Global, values: &[Value]) -> Result<Option<Clauses>, AllocError>
    ensures form { IfOk result (λ o. option_map (map tree_of) o ≡ forms (items_view values.now)) }
    ensures text { IfOk result AreTexts }
{
    let mut all = Clauses::new(alloc);
    for value in values {
        let Some(query) = form(alloc, value)? else {
            return Ok(None);
        };
        all.push(query)?;
    }
    Ok(Some(all))
}

/// How deep a query nests.
#[cycle(depths)]
fn depth(query: &Query) -> u64
    ensures { result ≡ min (depth (tree_of query.now)) (2 ^ 64 - 1) }
{
    match query {
        Query::MatchAll | Query::Term { .. } => 0,
        Query::Bool {
            must,
            filter,
            should,
            must_not,
            ..
        } => {
            let required = deepest(must.as_slice()).max(deepest(filter.as_slice()));
            let others = deepest(should.as_slice()).max(deepest(must_not.as_slice()));
            required.max(others).saturating_add(1)
        }
    }
}

#[cycle(depths)]
fn deepest(queries: &[Query]) -> u64
    ensures { result ≡ min (deepest (trees_of (map tree_of queries.now))) (2 ^ 64 - 1) }
{
    let mut most = 0;
    for query in queries {
        most = most.max(depth(query));
    }
    most
}

/// The JSON value of these bytes.
fn json_of(alloc: Global, bytes: &[u8]) -> Result<Value, QueryError>
    ensures { IsJson result (json_of bytes.now) }
{
    match Value::from_slice(alloc, bytes) {
        Ok(value) => Ok(value),
        Err(e) => {
            if e.is_memory() {
                Err(QueryError::NoMemory)
            } else {
                Err(QueryError::NotJson)
            }
        }
    }
}

impl Query {
    /// The query that a JSON text is: an object with exactly one member, `match_all`, `term` or `bool`. `NotJson` comes
    /// exactly where `serde_json` refuses the text for another cause than memory, among them nesting above 127; then
    /// `Shape` exactly where the value is in none of the forms; then `Depth` exactly where `bool` queries nest more
    /// than 32 deep. Bytes that are no UTF-8 are no JSON.
    pub fn read(alloc: Global, bytes: &[u8]) -> Result<Query, QueryError>
        ensures read { IsRead result (query bytes.now) }
        ensures text { IfOk result (λ q. IsTrue (is_text (tree_of q))) }
    {
        let value = json_of(alloc, bytes)?;
        let Some(query) = form(alloc, &value)? else {
            return Err(QueryError::Shape);
        };
        if depth(&query) > DEEPEST {
            return Err(QueryError::Depth);
        }
        Ok(query)
    }
}
