//! Generic folds at concrete types, through their bounds.
use crate::{Both, Count, Fold, Gauge, Last, PairItem, Parts};

// Two values and a last one that is absent.
#[test]
fn parts_and_last_values(rt: HostRuntime) {
    let early = Parts {
        min: 10,
        max: 10,
        sum: 10,
        count: 1,
    };
    let late = Parts {
        min: 2,
        max: 30,
        sum: 32,
        count: 2,
    };
    let both = Both::<Gauge, Last<i64>>::none()
        .add(&PairItem {
            a: early,
            b: Some(7),
        })
        .add(&PairItem { a: late, b: None });
    let want = Parts {
        min: 2,
        max: 30,
        sum: 42,
        count: 3,
    };
    assert_eq!(rt; both.a.0, Some(want));
    assert_eq!(rt; both.b.0, Some(7));
    assert_eq!(rt; Count::none().add(&4).merge(Count(5)).0, 9);
}
