//! The fields of a request, each read from its JSON value.

ghost use Rattle.std.specs.Prelude.{◌≡◌, Ok, map, option_and_then, option_map};
ghost use Rattle.std.specs.Result.{result_map_both};
ghost use Rattle.serde_json.specs.Find.{as_str};
ghost use Rattle.serde_json.specs.View.{items_view, view};
ghost use Rattle.request_lines.specs.Asking.{Gives, asked_pairs, field, found, one_pair, or_err, time};
ghost use Rattle.request_lines.specs.Fields.{all_in, id_in, ids_in, number_in, pair_in, pairs_in, two};

use crate::refused::name_of;
use node_ids::{NodeId, read_digits};
use op_model::{AskedPair, AskedPairs, FieldName, Ids, LineError};
use serde_json::Value;
use std::alloc::Global;

/// The value of a field, if the object has it.
#[tactic(auto, unfolding(crate::specs::Asking::found))]
pub fn found(object: &Value, name: FieldName) -> Option<&Value>
    ensures { option_map (λ v. view v.now) result ≡ found name (view object.now) }
{
    object.get(name_of(name))
}

/// The value of a field that has to be there.
fn needed(object: &Value, name: FieldName) -> Result<&Value, LineError>
    ensures { result_map_both (λ v. view v.now) (λ e. e) result
        ≡ or_err (LineError.MissingField name) (found name (view object.now)) }
{
    match found(object, name) {
        Some(value) => Ok(value),
        None => Err(LineError::MissingField { name }),
    }
}

/// A JSON number that is whole and from 0 to 2^64 - 1.
#[tactic(auto, unfolding(crate::specs::Fields::number_in))]
fn number_in(value: &Value) -> Option<u64>
    ensures { result ≡ number_in (view value.now) }
{
    value.as_u64()
}

/// An id: a string of its digits, or such a number.
#[tactic(auto, unfolding(crate::specs::Fields::id_in))]
fn id_in(value: &Value) -> Option<NodeId>
    ensures { result ≡ id_in (view value.now) }
{
    let number = match value.as_str() {
        Some(text) => read_digits(text.as_bytes())?,
        None => number_in(value)?,
    };
    Some(NodeId(number))
}

/// A field whose value is a string. `BadField` where it isn't one.
#[tactic(auto, unfolding(crate::specs::Asking::field))]
pub fn text(object: &Value, name: FieldName) -> Result<&str, LineError>
    ensures { result_map_both (λ s. s.now) (λ e. e) result ≡ field as_str name (view object.now) }
{
    let value = needed(object, name)?;
    match value.as_str() {
        Some(text) => Ok(text),
        None => Err(LineError::BadField { name }),
    }
}

/// A field that is a number.
#[tactic(auto, unfolding(crate::specs::Asking::field))]
pub fn number(object: &Value, name: FieldName) -> Result<u64, LineError>
    ensures { result ≡ field number_in name (view object.now) }
{
    let value = needed(object, name)?;
    match number_in(value) {
        Some(number) => Ok(number),
        None => Err(LineError::BadField { name }),
    }
}

/// A field that is an id.
#[tactic(auto, unfolding(crate::specs::Asking::field))]
pub fn id(object: &Value, name: FieldName) -> Result<NodeId, LineError>
    ensures { result ≡ field id_in name (view object.now) }
{
    let value = needed(object, name)?;
    match id_in(value) {
        Some(id) => Ok(id),
        None => Err(LineError::BadField { name }),
    }
}

/// The time of a read in milliseconds, which may be left out.
#[tactic(auto, unfolding(crate::specs::Asking::time, crate::specs::Asking::time_in))]
pub fn time(object: &Value) -> Result<Option<u64>, LineError>
    ensures { result ≡ time (view object.now) }
{
    let Some(value) = found(object, FieldName::At) else {
        return Ok(None);
    };
    match number_in(value) {
        Some(at) => Ok(Some(at)),
        None => Err(LineError::BadField {
            name: FieldName::At,
        }),
    }
}

/// What the items of a list of ids are. `BadField` where one is no id.
fn all_ids(alloc: Global, items: &[Value], name: FieldName) -> Result<Ids, LineError>
    ensures { Gives result
        (or_err (LineError.BadField name) (all_in id_in (items_view items.now))) }
{
    let mut list = Vec::new(alloc);
    for item in items {
        let Some(id) = id_in(item) else {
            return Err(LineError::BadField { name });
        };
        if list.push(id).is_err() {
            return Err(LineError::NoMemory);
        }
    }
    Ok(Ids { list })
}

/// A field that is a list of ids.
#[tactic(auto, unfolding(crate::specs::Asking::field, crate::specs::Fields::ids_in))]
pub fn ids(alloc: Global, object: &Value, name: FieldName) -> Result<Ids, LineError>
    ensures { Gives result (field ids_in name (view object.now)) }
{
    let Some(value) = found(object, name) else {
        return Err(LineError::MissingField { name });
    };
    let Some(items) = value.as_array() else {
        return Err(LineError::BadField { name });
    };
    all_ids(alloc, items.as_slice(), name)
}

/// The pair of two ids. `None` where there aren't two items, or one is no id.
#[tactic(auto, using(crate::proofs::Listed::no_pair))]
fn pair_of(items: &[Value]) -> Option<AskedPair>
    ensures { result ≡ option_and_then two (all_in id_in (items_view items.now)) }
{
    let [a, b] = items else {
        return None;
    };
    Some(AskedPair {
        a: id_in(a)?,
        b: id_in(b)?,
    })
}

/// A list of two ids.
#[tactic(auto, unfolding(crate::specs::Fields::pair_in, crate::specs::Fields::ids_in))]
fn pair_in(value: &Value) -> Option<AskedPair>
    ensures { result ≡ pair_in (view value.now) }
{
    let items = value.as_array()?;
    pair_of(items.as_slice())
}

/// What the items of a list of pairs are. `BadField` where one is no list of two ids.
fn all_pairs(alloc: Global, items: &[Value]) -> Result<AskedPairs, LineError>
    ensures { Gives result
        (or_err (LineError.BadField FieldName.Pairs) (all_in pair_in (items_view items.now))) }
{
    let mut list = Vec::new(alloc);
    for item in items {
        let Some(pair) = pair_in(item) else {
            return Err(LineError::BadField {
                name: FieldName::Pairs,
            });
        };
        if list.push(pair).is_err() {
            return Err(LineError::NoMemory);
        }
    }
    Ok(AskedPairs { list })
}

/// The pairs of a merge that has a list of them.
#[tactic(auto, unfolding(crate::specs::Asking::field, crate::specs::Fields::pairs_in))]
fn pairs(alloc: Global, object: &Value) -> Result<AskedPairs, LineError>
    ensures { Gives result (field pairs_in FieldName.Pairs (view object.now)) }
{
    let Some(value) = found(object, FieldName::Pairs) else {
        return Err(LineError::MissingField {
            name: FieldName::Pairs,
        });
    };
    let Some(items) = value.as_array() else {
        return Err(LineError::BadField {
            name: FieldName::Pairs,
        });
    };
    all_pairs(alloc, items.as_slice())
}

/// The pair of a merge that names its ends.
#[tactic(auto, unfolding(crate::specs::Asking::one_pair), using(crate::proofs::Given::gives_found))]
fn one_pair(alloc: Global, object: &Value) -> Result<AskedPairs, LineError>
    ensures { Gives result (one_pair (view object.now)) }
{
    let a = id(object, FieldName::A)?;
    let b = id(object, FieldName::B)?;
    let mut list = Vec::new(alloc);
    if list.push(AskedPair { a, b }).is_err() {
        return Err(LineError::NoMemory);
    }
    Ok(AskedPairs { list })
}

/// The pairs of a merge: where it has a list of them, that list alone counts.
#[tactic(auto, unfolding(crate::specs::Asking::asked_pairs))]
pub fn asked_pairs(alloc: Global, object: &Value) -> Result<AskedPairs, LineError>
    ensures { Gives result (asked_pairs (view object.now)) }
{
    if found(object, FieldName::Pairs).is_some() {
        pairs(alloc, object)
    } else {
        one_pair(alloc, object)
    }
}
