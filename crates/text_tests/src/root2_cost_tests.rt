use root2_cost::*;
use std::cmp::Ordering;

fn cost(a: u32, b: u32) -> Cost {
    Cost { a, b }
}

// 1414 / 1000 is just below √2, and 99 / 70 just above.
#[test]
fn costs_compare_by_value(rt: HostRuntime) {
    for (x, y, order) in [
        (cost(1414, 0), cost(0, 1000), Ordering::Less),
        (cost(99, 0), cost(0, 70), Ordering::Greater),
        (cost(4, 1), cost(1, 3), Ordering::Greater),
        (cost(3, 2), cost(3, 2), Ordering::Equal),
    ] {
        assert_eq!(rt; cmp(x, y), order, "{x:?} and {y:?}");
    }
}

#[test]
fn a_difference_has_a_sign(rt: HostRuntime) {
    assert_eq!(rt; cost(7, 0).minus(cost(0, 5)).sign(), Ordering::Less);
    assert_eq!(rt; cost(0, 5).minus(cost(7, 0)).sign(), Ordering::Greater);
    assert_eq!(rt; cost(3, 2).minus(cost(3, 2)).sign(), Ordering::Equal);
}

#[test]
fn distances_go_diagonally_first(rt: HostRuntime) {
    assert_eq!(rt; octile(5, 2), cost(3, 2));
    assert_eq!(rt; octile(2, 5), cost(3, 2));
    assert_eq!(rt; octile(4, 4).add(octile(0, 3)), cost(3, 4));
}

// 2 + √2 is 3.41421356..
#[test]
fn a_length_is_judged_by_its_decimals(rt: HostRuntime) {
    let cost = Cost { a: 2, b: 1 };
    for (digits, places, verdict) in [
        (341421, 5, Verdict::Agree),
        (341420, 5, Verdict::Near),
        (3405, 3, Verdict::Near),
        (3404, 3, Verdict::Off),
        (340, 2, Verdict::Off),
        (34, 1, Verdict::Agree),
        (5, 0, Verdict::Off),
    ] {
        let length = Decimal { digits, places };
        assert_eq!(rt; judge(length, cost), verdict, "{length:?}");
    }
}

// √2 is 1.41421356237309504880..; 93222358√2 is 131836322.9999999962..
#[test]
fn lengths_are_rounded_and_buckets_are_not(rt: HostRuntime) {
    for (cost, digits, number) in [
        (cost(0, 0), 0, 0),
        (cost(0, 2), 2_82842712, 0),
        (cost(2, 1), 3_41421356, 0),
        (cost(0, 3), 4_24264069, 1),
        (cost(7, 0), 7_00000000, 1),
        (cost(1, 93_222_358), 131836324_00000000, 32_959_080),
    ] {
        let length = nearest_length(cost);
        assert_eq!(rt; length, Decimal { digits, places: 8 }, "{cost:?}");
        assert_eq!(rt; bucket(cost), number, "{cost:?}");
    }
}

// 1414 / 1000 is just below √2 and 99 / 70 just above; 1855077841² is 2 · 1311738121² − 1.
#[test]
fn ranks_order_costs_that_are_close(rt: HostRuntime) {
    for (less, more) in [
        (Cost { a: 1414, b: 0 }, Cost { a: 0, b: 1000 }),
        (Cost { a: 0, b: 70 }, Cost { a: 99, b: 0 }),
        (
            Cost {
                a: 1_855_077_841,
                b: 0,
            },
            Cost {
                a: 0,
                b: 1_311_738_121,
            },
        ),
    ] {
        assert!(rt; less.rank() < more.rank(), "{less:?} and {more:?}");
    }
}
