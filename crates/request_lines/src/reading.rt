//! What a request line asks.

ghost use Rattle.std.specs.Prelude.{◌≡◌, IfErr, IfOk, None, Some, ◌⊎◌};
ghost use Rattle.serde_json.specs.View.{view};
ghost use Rattle.request_lines.specs.Asking.{Gives, asked, changes_of, leaves_of, merge_of, named_request, one_pair, path_of, redo_of, request_of, root_of, split_of, undo_of};
ghost use Rattle.request_lines.specs.Fields.{value_of};

use crate::fields;
use op_model::{Edit, FieldName, LineError, Read, Request};
use serde_json::Value;
use std::alloc::Global;

/// The value of a line.
#[tactic(auto, using(crate::proofs::Values::value_of_text, crate::proofs::Values::none_of_text))]
fn read_value(alloc: Global, line: &[u8]) -> Result<Value, LineError>
    ensures ok { IfOk result (λ v. value_of line.now ≡ Some (view v)) }
    ensures err { IfErr result (λ e. e ≡ LineError.NotJson → value_of line.now ≡ None) }
    ensures kinds { IfErr result (λ e. (e ≡ LineError.NotJson) ⊎ (e ≡ LineError.NoMemory)) }
{
    match Value::from_slice(alloc, line) {
        Ok(value) => Ok(value),
        Err(e) => {
            if e.is_memory() {
                return Err(LineError::NoMemory);
            }
            Err(LineError::NotJson)
        }
    }
}

#[tactic(auto, unfolding(crate::specs::Asking::root_of))]
fn root(object: &Value) -> Result<Request, LineError>
    ensures { result ≡ root_of (view object.now) }
{
    let sv = fields::id(object, FieldName::Sv)?;
    let at = fields::time(object)?;
    Ok(Request::Read(Read::Root { sv, at }))
}

#[tactic(auto, unfolding(crate::specs::Asking::path_of))]
fn path(object: &Value) -> Result<Request, LineError>
    ensures { result ≡ path_of (view object.now) }
{
    let sv = fields::id(object, FieldName::Sv)?;
    let at = fields::time(object)?;
    Ok(Request::Read(Read::Path { sv, at }))
}

#[tactic(auto, unfolding(crate::specs::Asking::leaves_of))]
fn leaves(object: &Value) -> Result<Request, LineError>
    ensures { result ≡ leaves_of (view object.now) }
{
    let root = fields::id(object, FieldName::Root)?;
    let at = fields::time(object)?;
    Ok(Request::Read(Read::Leaves { root, at }))
}

#[tactic(auto, unfolding(crate::specs::Asking::changes_of))]
fn changes(object: &Value) -> Result<Request, LineError>
    ensures { result ≡ changes_of (view object.now) }
{
    let root = fields::id(object, FieldName::Root)?;
    let at = fields::time(object)?;
    Ok(Request::Read(Read::Changes { root, at }))
}

#[tactic(auto, unfolding(crate::specs::Asking::merge_of), using(crate::proofs::Given::gives_fault))]
fn merge(alloc: Global, object: &Value) -> Result<Request, LineError>
    ensures { Gives result (merge_of (view object.now)) }
{
    let pairs = fields::asked_pairs(alloc, object)?;
    Ok(Request::Edit(Edit::Merge { pairs }))
}

#[tactic(auto, unfolding(crate::specs::Asking::split_of), using(crate::proofs::Given::gives_fault))]
fn split(alloc: Global, object: &Value) -> Result<Request, LineError>
    ensures { Gives result (split_of (view object.now)) }
{
    let sources = fields::ids(alloc, object, FieldName::Sources)?;
    let sinks = fields::ids(alloc, object, FieldName::Sinks)?;
    Ok(Request::Edit(Edit::Split { sources, sinks }))
}

#[tactic(auto, unfolding(crate::specs::Asking::undo_of))]
fn undo(object: &Value) -> Result<Request, LineError>
    ensures { result ≡ undo_of (view object.now) }
{
    let op = fields::number(object, FieldName::Op)?;
    Ok(Request::Edit(Edit::Undo { op }))
}

#[tactic(auto, unfolding(crate::specs::Asking::redo_of))]
fn redo(object: &Value) -> Result<Request, LineError>
    ensures { result ≡ redo_of (view object.now) }
{
    let op = fields::number(object, FieldName::Op)?;
    Ok(Request::Edit(Edit::Redo { op }))
}

/// The request of this name.
#[tactic(auto, unfolding(crate::specs::Asking::named_request), using(crate::proofs::Given::gives_found))]
fn named_request(alloc: Global, name: &str, object: &Value) -> Result<Request, LineError>
    ensures { Gives result (named_request name.now (view object.now)) }
{
    match name {
        "root" => root(object),
        "path" => path(object),
        "leaves" => leaves(object),
        "changes" => changes(object),
        "merge" => merge(alloc, object),
        "split" => split(alloc, object),
        "undo" => undo(object),
        "redo" => redo(object),
        _ => Err(LineError::NoSuchCommand),
    }
}

/// The request of a value. Its name comes before its other fields.
#[tactic(auto, unfolding(crate::specs::Asking::request_of), using(crate::proofs::Given::gives_found))]
fn request(alloc: Global, value: &Value) -> Result<Request, LineError>
    ensures { Gives result (request_of (view value.now)) }
{
    if !value.is_object() {
        return Err(LineError::NotObject);
    }
    let name = fields::text(value, FieldName::Do)?;
    named_request(alloc, name, value)
}

/// What a line without its line feed asks, or the first cause for which it is no request:
///
/// - `NotJson` where `serde_json` reads no value from it, and `NotObject` where that is no object;
/// - `MissingField` and `BadField` of `do`, where it isn't there or is no string;
/// - `NoSuchCommand` where `do` names no request;
/// - `MissingField` and `BadField` of the first field, in the request's order, that isn't there and
///   may not be left out, or isn't of its form;
/// - `NoMemory` at any time.
///
/// `LineTooLong` never comes: whoever reads the stream counts its bytes. Other fields are ignored,
/// and of a key that stands twice the last value counts.
#[tactic(auto, unfolding(crate::specs::Asking::asked), using(crate::proofs::Given::gives_found))]
pub fn read_line(alloc: Global, line: &[u8]) -> Result<Request, LineError>
    ensures { Gives result (asked line.now) }
{
    let value = read_value(alloc, line)?;
    request(alloc, &value)
}
