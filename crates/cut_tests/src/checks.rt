//! Nets, and the faults of a cut and a flow.

use crate::links::{glue, link};
use flow_net::{Cut, CutFault, Flow, Net, check_cut, is_net};
use std::test::Fail;

#[test]
fn nets(rt: HostRuntime) {
    let ascending = [link(0, 1, 1), link(2, 0, 1), link(2, 1, 1)];
    assert!(rt; is_net(3, &ascending));
    assert!(rt; !is_net(2, &ascending));
    assert!(rt; is_net(3, &[ascending[2], ascending[0]]));
    assert!(rt; !is_net(3, &[link(0, 1, 1), glue(1, 0)]));
    assert!(rt; !is_net(3, &[link(1, 1, 1)]));
    assert!(rt; is_net(0, &[]));
}

// a walk 0-1-2-3 with glue in the middle, cut at its first link
#[test]
fn checks_of_one_cut(rt: HostRuntime) -> Result<(), Fail> {
    let links = vec![in rt.alloc(); link(0, 1, 3), glue(1, 2), link(2, 3, 4)]?;
    assert!(rt; is_net(4, &links));
    let net = Net::new(4, links);
    let cut = Cut {
        links: vec![in rt.alloc(); 0]?,
    };
    for (first, last, answer) in [
        (3, 3, Ok(())),
        (
            3,
            -5,
            Err(CutFault::OverRoom {
                link: 2,
                amount: -5,
            }),
        ),
        (
            3,
            -4,
            Err(CutFault::Unbalanced {
                vertex: 2,
                into: 7,
                out: 0,
            }),
        ),
        (
            2,
            2,
            Err(CutFault::Unequal {
                value: 2,
                weight: 3,
            }),
        ),
    ] {
        let flow = Flow {
            amounts: vec![in rt.alloc(); first, first, last]?,
        };
        let mut seen = [true; 4];
        let answered = check_cut(&net, &[0, 0], &[3], &cut, &flow, &mut seen);
        assert!(rt; answered == answer, "at {first} and {last}");
    }
    Ok(())
}
