ghost use Rattle.std.specs.Prelude.{ℕ, nat_lt, if◌then◌else◌};
ghost use Rattle.std.proofs.Common.{ap};
ghost use Rattle.key_rows.specs.Keys.{mixed as mixed_value};
ghost use Rattle.key_rows.specs.KeyLaws.{same_numbers};

use key_rows::{Key, KeyRows, mixed};

#[test]
fn rows_by_key(rt: HostRuntime) {
    let mut rows: KeyRows<u32> = KeyRows::new(rt.alloc());
    for key in [Some(3u32), None, Some(5), Some(3), Some(3)] {
        rows.reserve(key, 1).expect(&rt, "an answer");
        rows.push(key);
    }
    assert!(rt; rows.has_cell(5) && !rows.has_cell(7));
    // a key, and where the first and the last stand that have it
    let ends = [
        (3u32, Some(0u64), Some(4u64)),
        (5, Some(2), Some(2)),
        (7, None, None),
    ];
    for (key, first, last) in ends {
        assert_eq!(rt; rows.first(key), first);
        assert_eq!(rt; rows.last(key), last);
    }
    // for each member, and one behind the last, where the next stands that has its key
    let nexts = [Some(3u64), None, None, Some(4), None, None];
    for (k, next) in nexts.into_iter().enumerate() {
        assert_eq!(rt; rows.next(k as u64), next);
    }
}

/// A number that is spread like all others in the first twenty rounds.
#[derive(Clone, Copy, Debug, PartialEq, Eq, PartialOrd, Ord, Drop)]
struct Clashing {
    number: u32,
}

impl Key for Clashing {
    ghost spread = { λ n k. if nat_lt n 20 then 0 else mixed_value n k.number };

    fn spread(self, round: u64) -> u64 {
        if round < 20 {
            return 0;
        }
        mixed(round, self.number)
    }

    ghost alike = { λ n a b e.
        ap (λ m. if nat_lt n 20 then 0 else mixed_value n m) (same_numbers a.number b.number e) };
}

// Keys that all have one chain in the first rounds. A walk along one chain for each of them would take minutes.
#[test]
fn keys_that_clash_are_found_in_time(rt: HostRuntime) {
    let mut rows: KeyRows<Clashing> = KeyRows::new(rt.alloc());
    for number in 0..40_000u32 {
        let key = Some(Clashing { number });
        rows.reserve(key, 1).expect(&rt, "an answer");
        rows.push(key);
    }
    for number in 0..40_000u32 {
        assert_eq!(rt; rows.first(Clashing { number }), Some(u64::from(number)));
    }
}
