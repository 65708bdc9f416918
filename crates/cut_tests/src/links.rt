//! Links as the tests write them.

use flow_net::Link;

/// A link with room.
pub fn link(a: u32, b: u32, room: u32) -> Link {
    Link {
        a,
        b,
        room: Some(room),
    }
}

/// A link that is glue.
pub fn glue(a: u32, b: u32) -> Link {
    Link { a, b, room: None }
}
