//! The nodes and links that an entry makes in all layers, over the rows of the log before it.
//!
//! The promise: [`entry_layers`] gives the nodes and the links as the entry's records have them, the roots
//! that it makes, and the first chunk without numbers for all of its nodes. Where there is such a chunk
//! the links are right in their number alone. Nothing is looked at but the part of the base that the
//! entry touches, the last node of each chunk in which it makes some, and the way up to each child that
//! stands.
//!
//! - `gathering`: what is gathered layer by layer
//! - `layering`: the layers, one from the other
//! - `roots`: the roots among the nodes
#![tactic(auto)]

mod gathering;
mod layering;
mod roots;

pub use gathering::{EntryLayers, SpentChunk, begin};
pub use layering::{LayerBelow, add_layer, entry_layers, lowest};
pub use roots::ids_of_made;
