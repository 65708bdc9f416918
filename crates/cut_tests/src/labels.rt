//! Components of small graphs.

use components::components;

#[test]
fn small_graphs(rt: HostRuntime) {
    for (n, pairs, wanted) in [
        (0, [].as_slice(), [].as_slice()),
        (3, &[], &[0, 1, 2]),
        (5, &[(0, 1), (3, 4), (4, 4), (1, 0)], &[0, 0, 2, 3, 3]),
        (6, &[(5, 3), (3, 1), (4, 2), (2, 0)], &[0, 1, 0, 1, 0, 1]),
        (4, &[(2, 3), (1, 2), (0, 1), (0, 3)], &[0, 0, 0, 0]),
    ] {
        assert!(rt; pairs.iter().all(|p| p.0 < n && p.1 < n));
        let Ok(least) = components(rt.alloc(), n, pairs) else {
            panic!(rt; "memory is ample")
        };
        assert_eq!(rt; least.as_slice(), wanted, "of {pairs:?}");
    }
}
