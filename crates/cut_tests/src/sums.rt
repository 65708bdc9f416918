//! Sums of affinities.

use lane_kernels::sum_affinities;

const COUNT: usize = 65;

#[test]
fn sums_of_tails(rt: HostRuntime) {
    let mut ascending = [0u32; COUNT];
    for i in 0..COUNT {
        ascending[i] = i as u32 + 1;
    }
    for (length, sum) in [(0, 0), (7, 28), (8, 36), (9, 45), (64, 2080), (65, 2145)] {
        assert_eq!(rt; sum_affinities(&ascending[..length]), sum, "of {length}");
    }
    let greatest = [u32::MAX; COUNT];
    for (length, sum) in [(1, 4294967295), (8, 34359738360), (65, 279172874175)] {
        assert_eq!(rt;
            sum_affinities(&greatest[..length]),
            sum,
            "of {length} at the most"
        );
    }
}
