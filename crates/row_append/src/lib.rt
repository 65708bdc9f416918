//! Records appended one by one to the words of an image.
//!
//! The words are at every moment those of a list of records. A record that is put behind the others
//! takes a store for each chain that it belongs to: the one empty pointer along that chain, the
//! owner's or its last member's, is made to lead to it. A `Tail` says which pointer that is, and
//! the laws say which it is afterwards; so a caller needs no walk along a chain.
//!
//! `specs/Ends` has the chains and where they end, `specs/Laws` what holds of that.
//!
//! The promise: a record of a base or of its first entry that is put behind the words of others,
//! with one store for each chain that it belongs to, gives the words of the longer list
//! (`push_header`, `push_supervoxel`, `push_chunk`, `push_edge`, `push_node`, `push_link`,
//! `push_entry`). Where each chain ends then is known without a walk (`others_stay`,
//! `chains_begin`, `members_end`, `ends_are_last`, `first_places_stay` of `laws`).
//!
//! - `header`: the words of a header
//! - `laws`: where chains end with one more record, each law the contract of a function that does
//!   nothing
//! - `putting`: one record's words, and one pointer
//! - `pushing`: the records of a base and its first entry, kind by kind
//! - `tail`: where a chain ends
#![tactic(auto)]

mod header;
pub mod laws;
mod pushing;
mod putting;
mod tail;

pub use pushing::{
    NewLink, NewNode, push_chunk, push_edge, push_entry, push_header, push_link, push_node,
    push_supervoxel,
};
pub use tail::Tail;
