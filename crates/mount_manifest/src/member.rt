// Members of a JSON object, by their form.
ghost use Rattle.std.specs.Prelude.{◌≡◌, IfOk, option_map, map, is_some};
ghost use Rattle.std.specs.List.{list_all};
ghost use Rattle.serde_json.specs.View.{view};
ghost use Rattle.serde_json.specs.Find.{get, as_object};
ghost use Rattle.mount_manifest.specs.Json.{whole_at, whole_of, name_at, name_of, optional, list_at, objects_at};

use byte_text::Name;
use serde_json::Value;
use std::alloc::{AllocError, Global};

pub fn whole_member(object: &Value, key: &str) -> Option<u64>
    ensures { result ≡ whole_at key.now (view object.now) }
{
    match object.get(key) {
        Some(value) => value.as_u64(),
        None => None,
    }
}

/// A missing or null member is `Some(None)`, and one that is no whole number is None.
pub fn optional_whole_member(object: &Value, key: &str) -> Option<Option<u64>>
    ensures { result ≡ optional whole_of (get key.now (view object.now)) }
{
    match object.get(key) {
        None => Some(None),
        Some(value) => {
            if value.is_null() {
                return Some(None);
            }
            match value.as_u64() {
                Some(n) => Some(Some(n)),
                None => None,
            }
        }
    }
}

fn name_in(alloc: Global, value: &Value) -> Result<Option<Name>, AllocError>
    ensures { IfOk result (λ o. o ≡ name_of (view value.now)) }
{
    match value.as_str() {
        None => Ok(None),
        Some(text) => Name::read(alloc, text.as_bytes()),
    }
}

pub fn name_member(alloc: Global, object: &Value, key: &str) -> Result<Option<Name>, AllocError>
    ensures { IfOk result (λ o. o ≡ name_at key.now (view object.now)) }
{
    match object.get(key) {
        None => Ok(None),
        Some(value) => name_in(alloc, value),
    }
}

/// A missing or null member is `Some(None)`, and one that is no name is None.
pub fn optional_name_member(
    alloc: Global,
    object: &Value,
    key: &str,
) -> Result<Option<Option<Name>>, AllocError>
    ensures { IfOk result (λ o. o ≡ optional name_of (get key.now (view object.now))) }
{
    match object.get(key) {
        None => Ok(Some(None)),
        Some(value) => {
            if value.is_null() {
                return Ok(Some(None));
            }
            match name_in(alloc, value)? {
                Some(name) => Ok(Some(Some(name))),
                None => Ok(None),
            }
        }
    }
}

fn array_member<'v>(object: &'v Value, key: &str) -> Option<&'v [Value]>
    ensures { option_map (λ s. map view s.now) result ≡ list_at key.now (view object.now) }
{
    match object.get(key) {
        Some(value) => match value.as_array() {
            Some(list) => Some(list.as_slice()),
            None => None,
        },
        None => None,
    }
}

fn all_objects(values: &[Value]) -> bool
    ensures { result ≡ list_all (λ d. is_some (as_object d)) (map view values.now) }
{
    for value in values {
        if !value.is_object() {
            return false;
        }
    }
    true
}

/// The items of an array of objects.
pub fn objects_member<'v>(object: &'v Value, key: &str) -> Option<&'v [Value]>
    ensures { option_map (λ s. map view s.now) result ≡ objects_at key.now (view object.now) }
{
    match array_member(object, key) {
        Some(list) => { if all_objects(list) { Some(list) } else { None } }
        None => None,
    }
}
