// Counts that are cut, a watched operator, and shares.
use crate::pairs::Pair;
use crate::plans::value_of;
use crate::shares::share;
use crate::tallies::{Count, Tally, Watch};
use task::{Fault, Kind, Layer};

#[test]
fn counts_are_cut(rt: HostRuntime) {
    assert_eq!(rt; Count.join(2, 3), 5);
    assert_eq!(rt; Count.join(u64::MAX, 1), u64::MAX);
}

#[test]
fn a_watched_operator_is_seen(rt: HostRuntime) {
    let watch = Watch { operator: 7 };
    assert_eq!(rt; value_of(&watch, &[3, 7, 3]), Pair { all: 1, with: 1 });
    assert_eq!(rt; value_of(&watch, &[3, 3]), Pair { all: 1, with: 0 });
}

#[test]
fn shares(rt: HostRuntime) {
    assert_eq!(rt; share(Pair { all: 2, with: 2 }), Ok(1.0));
    assert_eq!(rt; share(Pair { all: 2, with: 0 }), Ok(0.0));
    assert_eq!(rt; share(Pair { all: 4, with: 1 }), Ok(0.25));
}

#[test]
fn no_share(rt: HostRuntime) {
    let no_pair = Err(Layer::Session.fault(Kind::BadNumber, 0));
    assert_eq!(rt; share(Pair { all: 0, with: 0 }), no_pair);
    assert_eq!(rt; share(Pair { all: 1, with: 2 }), no_pair);
    let exact = 9_007_199_254_740_992;
    assert_eq!(rt;
        share(Pair {
            all: exact,
            with: exact,
        }),
        Ok(1.0)
    );
    assert_eq!(rt;
        share(Pair {
            all: exact + 1,
            with: 1,
        }),
        Err(Layer::Session.fault(Kind::TooMany, 0))
    );
}
