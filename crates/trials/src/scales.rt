//! Scales at the edges.
use scale::digits::digits;
use scale::reading::Reading;
use scale::scales::{Boolean, FiveValued, Scale};

#[test]
fn a_level_outside_the_scale_has_no_reading(rt: HostRuntime) {
    assert_eq!(rt; Boolean.levels(), 1);
    assert_eq!(rt; Boolean.reading(0), None);
    assert_eq!(rt; Boolean.reading(1), Some(Reading::Always));
    assert_eq!(rt; Boolean.reading(2), None);
    assert_eq!(rt; FiveValued.levels(), 4);
    assert_eq!(rt; FiveValued.reading(0), None);
    assert_eq!(rt; FiveValued.reading(1), Some(Reading::Sometime));
    assert_eq!(rt; FiveValued.reading(2), Some(Reading::InfinitelyOften));
    assert_eq!(rt; FiveValued.reading(3), Some(Reading::EventuallyAlways));
    assert_eq!(rt; FiveValued.reading(4), Some(Reading::Always));
    assert_eq!(rt; FiveValued.reading(255), None);
}

#[test]
fn a_degree_is_written_with_the_ones_last(rt: HostRuntime) {
    assert_eq!(rt; digits(4, 2), Some("0011"));
    assert_eq!(rt; digits(4, 0), Some("0000"));
    assert_eq!(rt; digits(4, 4), Some("1111"));
    assert_eq!(rt; digits(1, 1), Some("1"));
    assert_eq!(rt; digits(2, 1), Some("01"));
    assert_eq!(rt; digits(4, 5), None);
    assert_eq!(rt; digits(5, 1), None);
    assert_eq!(rt; digits(0, 0), None);
}
