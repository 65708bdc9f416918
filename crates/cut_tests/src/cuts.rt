//! Worked least cuts.

use crate::bodies::is_refusal;
use crate::links::{glue, link};
use flow_net::{Net, is_net};
use min_cut::{CutError, LeastCut, least_cut, plain};
use std::test::Fail;

// whether a cut with this weight and flow was found
fn is_found(found: &Result<LeastCut, CutError>, cut: &[u32], total: u64, amounts: &[i64]) -> bool {
    match found {
        Ok(least) => {
            least.total == total
                && least.cut.links.as_slice() == cut
                && least.flow.amounts.as_slice() == amounts
        }
        Err(_) => false,
    }
}

// of a path the cut nearest the source; of two least cuts the one with the least source side; the greatest room; glue;
// no walk
#[test]
fn worked_cuts(rt: HostRuntime) -> Result<(), Fail> {
    let alloc = rt.alloc();
    let even = [link(0, 1, 5), link(1, 2, 5), link(2, 3, 5)];
    let falling = [link(0, 1, 10), link(1, 2, 7), link(2, 3, 5)];
    let crossed = [
        link(0, 1, 3),
        link(0, 2, 2),
        link(1, 2, 5),
        link(1, 3, 2),
        link(2, 3, 3),
    ];
    let widest = [link(0, 1, 4294967295)];
    let glued = [glue(0, 1), link(1, 2, 7)];
    for (n, links, source, sink, cut, total, amounts) in [
        (
            4,
            even.as_slice(),
            0,
            3,
            [0].as_slice(),
            5,
            [5, 5, 5].as_slice(),
        ),
        (4, &even, 3, 0, &[2], 5, &[-5, -5, -5]),
        (4, &falling, 0, 3, &[2], 5, &[5, 5, 5]),
        (4, &crossed, 0, 3, &[0, 1], 5, &[3, 2, 1, 2, 3]),
        (2, &widest, 0, 1, &[0], 4294967295, &[4294967295]),
        (3, &glued, 0, 2, &[1], 7, &[7, 7]),
        (3, &widest, 0, 2, &[], 0, &[0]),
    ] {
        assert!(rt; is_net(n, links));
        assert!(rt; source < n && sink < n && source != sink && links.len() <= 500000);
        let net = Net::new(n, links.to_vec(alloc)?);
        let found = least_cut(alloc, &net, &[source], &[sink]);
        assert!(rt; is_found(&found, cut, total, amounts), "of {links:?}");
    }
    Ok(())
}

// p-q is glue, q-r weighs 7: r is no source that glue joins to q, p is
#[test]
fn first_glued_source(rt: HostRuntime) -> Result<(), Fail> {
    let links = vec![in rt.alloc(); glue(0, 1), link(1, 2, 7)]?;
    assert!(rt; is_net(3, &links));
    let net = Net::new(3, links);
    let glued = CutError::Glued { source: 0, sink: 1 };
    let one = least_cut(rt.alloc(), &net, &[2, 0], &[1]);
    assert!(rt; is_refusal(&one, &glued));
    let other = plain::least_cut(rt.alloc(), &net, &[2, 0], &[1]);
    assert!(rt; is_refusal(&other, &glued));
    Ok(())
}
