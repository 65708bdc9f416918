//! Ids, their parts and their digits.

use node_ids::{Layout, NodeId, Parts, read_digits, write_digits};

/// Whether an id is packed, unpacked, written and read as it was by hand.
fn is_as_by_hand() -> bool {
    let Ok(layout) = Layout::of_version(2, 8) else {
        return false;
    };
    let parts = Parts {
        layer: 2,
        x: 1,
        y: 0,
        z: 0,
        segment: 5,
    };
    let id = NodeId(144396663052566533);
    let mut digits = [b'.'; 20];
    let count = write_digits(id.0, &mut digits);
    layout.pack(parts) == Ok(id)
        && layout.unpack(id) == parts
        && layout.width(3) == 7
        && &digits == b"144396663052566533.."
        && read_digits(&digits[..count]) == Some(id.0)
}

#[test]
fn ids_and_digits(rt: HostRuntime) {
    assert!(rt; is_as_by_hand());
}
