// Printing a query.
ghost use Rattle.std.specs.Prelude.{◌≡◌, map, string_bytes, IfOk, OnOk, IsTrue, Ok, ◌≤◌};
ghost use Rattle.serde_json.specs.Data.{array};
ghost use Rattle.serde_json.specs.View.{view, items_view, members_view};
ghost use Rattle.query_lang.specs.Trees.{term, depth, tree_of, trees_of, is_text, are_text};
ghost use Rattle.serde_json.specs.Written.{compact_text};
ghost use Rattle.std.specs.Str.{is_utf8};
ghost use Rattle.query_lang.specs.Reading.{query};
ghost use Rattle.query_lang.specs.Printing.{data_of, datas_of, put_list, put_number, single};

use crate::Query;
use byte_text::Text;
use serde_json::{Map, Value};
use std::alloc::{AllocError, Global};

fn one_member(alloc: Global, key: &str, value: Value) -> Result<Value, AllocError>
    ensures { IfOk result (λ v. view v ≡ single key.now (view value)) }
{
    let mut members = Map::new(alloc);
    serde_json::put(&mut members, alloc, key, value)?;
    Ok(Value::Object(members))
}

fn array_of(list: Vec<Value>) -> Value
    ensures { view result ≡ array (items_view list.items) }
{
    Value::Array(list)
}

fn with_list(
    alloc: Global,
    members: &mut Map<String, Value>,
    key: &str,
    list: Vec<Value>,
) -> Result<(), AllocError>
    ensures { OnOk result (members_view members.new.entries
        ≡ put_list key.now (items_view list.items) (members_view members.old.entries)) }
{
    if list.len() == 0 {
        return Ok(());
    }
    serde_json::put(members, alloc, key, array_of(list))
}

fn with_number(
    alloc: Global,
    members: &mut Map<String, Value>,
    key: &str,
    number: Option<u64>,
) -> Result<(), AllocError>
    ensures { OnOk result (members_view members.new.entries
        ≡ put_number key.now number (members_view members.old.entries)) }
{
    match number {
        None => Ok(()),
        Some(n) => serde_json::put(members, alloc, key, Value::from(n)),
    }
}

#[tactic(auto, using(crate::proofs::Items::is_valid))]
fn text_of(text: &Text) -> &str
    requires { IsTrue (is_utf8 text.now) }
    ensures { result.now ≡ text.now }
{
    std::str::from_utf8(text.as_bytes()).unwrap()
}

fn term_value(alloc: Global, field: &Text, value: &Text) -> Result<Value, AllocError>
    requires field { IsTrue (is_utf8 field.now) }
    requires value { IsTrue (is_utf8 value.now) }
    ensures { IfOk result (λ v. view v ≡ data_of (term field.now value.now)) }
{
    let text = Value::String(String::from_str(alloc, text_of(value))?);
    let inner = one_member(alloc, text_of(field), text)?;
    one_member(alloc, "term", inner)
}

/// The JSON value of a query.
#[cycle(prints)]
fn value_of(alloc: Global, query: &Query) -> Result<Value, AllocError>
    requires { IsTrue (is_text (tree_of query.now)) }
    ensures { IfOk result (λ v. view v ≡ data_of (tree_of query.now)) }
{
    match query {
        Query::MatchAll => one_member(alloc, "match_all", Value::Object(Map::new(alloc))),
        Query::Term { field, value } => term_value(alloc, field, value),
        Query::Bool {
            must,
            filter,
            should,
            must_not,
            minimum,
        } => {
            let mut members = Map::new(alloc);
            with_list(
                alloc,
                &mut members,
                "should",
                values_of(alloc, should.as_slice())?,
            )?;
            with_list(
                alloc,
                &mut members,
                "must_not",
                values_of(alloc, must_not.as_slice())?,
            )?;
            with_list(
                alloc,
                &mut members,
                "must",
                values_of(alloc, must.as_slice())?,
            )?;
            with_number(alloc, &mut members, "minimum_should_match", *minimum)?;
            with_list(
                alloc,
                &mut members,
                "filter",
                values_of(alloc, filter.as_slice())?,
            )?;
            one_member(alloc, "bool", Value::Object(members))
        }
    }
}

#[cycle(prints)]
fn values_of(alloc: Global, queries: &[Query]) -> Result<Vec<Value>, AllocError>
    requires { IsTrue (are_text (trees_of (map tree_of queries.now))) }
    ensures { IfOk result (λ vs. items_view vs.items ≡ datas_of (trees_of (map tree_of queries.now))) }
{
    let mut values = Vec::new(alloc);
    for query in queries {
        values.push(value_of(alloc, query)?)?;
    }
    Ok(values)
}

fn text_of_string(text: String) -> Text
    ensures { result ≡ string_bytes text }
{
    Text::from_vec(text.into_bytes())
}

impl Query {
    /// The JSON text of a query, without blanks, and with the members of a `bool` in the order of their keys: terms in
    /// the short form, clause lists as arrays, empty lists and a missing minimum left out. Its condition is that field
    /// names and values are UTF-8, as those of a query that was read are. It is read as the same query, where that
    /// nests at most 32 deep.
    pub fn print(&self, alloc: Global) -> Result<Text, AllocError>
        requires { IsTrue (is_text (tree_of self.now)) }
        ensures text { IfOk result (λ t. t ≡ compact_text (data_of (tree_of self.now))) }
        ensures reads_back { depth (tree_of self.now) ≤ 32 → IfOk result (λ t. query t ≡ Ok (tree_of self.now)) }
    {
        let value = value_of(alloc, self)?;
        let text = value.to_string(alloc)?;
        Ok(text_of_string(text))
    }
}
