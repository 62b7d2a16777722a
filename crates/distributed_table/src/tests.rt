// What no clause says: with memory at hand, filters are built, and cost what was counted by hand.

ghost use Rattle.std.specs.Prelude.{◌≡◌, ℤ, pos, negsuc};

use crate::Distributed;
use net_graph::{NameKind, Net, Stream};
use stage_law::{Class, Range, Ranges, Stage, WeightedSum};
use std::test::Fail;

// Knows the one stream of zeros.
#[derive(Drop)]
struct Silent {
    range: Range,
    ghost none: { range ≡ record { lo = pos 0; hi = pos 0 } },
}

impl Ranges for Silent {
    ghost streams = { λ _ v. (k : ℤ) → v k ≡ pos 0 };

    ghost causal = { λ _. record { each = λ v is n. is (negsuc n) } };

    fn range(&self, _sum: &WeightedSum, _class: Class) -> Range {
        self.range
    }
}

#[test]
fn builds_a_short_last_run(rt: HostRuntime) -> Result<(), Fail> {
    let filter = Distributed::<2>::new(rt.alloc(), &[1, -2, 3], 1, 4)?;
    assert_eq!(rt; filter.delay(4), 7);
    assert_eq!(rt; filter.cost().adders, 5);
    assert_eq!(rt; filter.cost().windows, 3);
    assert_eq!(rt; filter.cost().tables, 2);
    let mut net = Net::new(rt.alloc());
    let input = net.input(4)?;
    net.set_group(1);
    let from = Stream {
        node: input,
        period: 4,
        offset: 0,
    };
    let silent = Silent {
        range: Range { lo: 0, hi: 0 },
    };
    let emitted = filter.emit(rt.alloc(), &mut net, from, &silent)?;
    assert_eq!(rt; emitted.stream.period, 4);
    assert_eq!(rt; emitted.stream.offset, 7);
    assert_eq!(rt; emitted.peaks.len(), 0);
    assert_eq!(rt; net.free_number(1, NameKind::Window), 3);
    assert_eq!(rt; net.free_number(1, NameKind::Copy), 3);
    assert_eq!(rt; net.free_number(1, NameKind::Table), 2);
    assert_eq!(rt; net.free_number(1, NameKind::Register), 3);
    Ok(())
}

#[test]
fn builds_fewer_taps_than_a_run(rt: HostRuntime) -> Result<(), Fail> {
    let filter = Distributed::<6>::new(rt.alloc(), &[-5], 3, 2)?;
    assert_eq!(rt; filter.delay(1), 4);
    assert_eq!(rt; filter.cost().adders, 2);
    assert_eq!(rt; filter.cost().tables, 1);
    let mut net = Net::new(rt.alloc());
    let input = net.input(2)?;
    net.set_group(2);
    let from = Stream {
        node: input,
        period: 1,
        offset: 5,
    };
    let silent = Silent {
        range: Range { lo: 0, hi: 0 },
    };
    let emitted = filter.emit(rt.alloc(), &mut net, from, &silent)?;
    assert_eq!(rt; emitted.stream.period, 3);
    assert_eq!(rt; emitted.stream.offset, 9);
    assert_eq!(rt; net.free_number(2, NameKind::Table), 1);
    assert_eq!(rt; net.free_number(2, NameKind::Register), 1);
    Ok(())
}

#[test]
fn builds_over_one_bit(rt: HostRuntime) -> Result<(), Fail> {
    let filter = Distributed::<3>::new(rt.alloc(), &[1, -2, 5, 0, 0, 0], 1, 1)?;
    assert_eq!(rt; filter.delay(1), 4);
    assert_eq!(rt; filter.cost().adders, 5);
    let mut net = Net::new(rt.alloc());
    let input = net.input(1)?;
    net.set_group(1);
    let from = Stream {
        node: input,
        period: 1,
        offset: 0,
    };
    let silent = Silent {
        range: Range { lo: 0, hi: 0 },
    };
    let emitted = filter.emit(rt.alloc(), &mut net, from, &silent)?;
    assert_eq!(rt; emitted.stream.period, 1);
    assert_eq!(rt; emitted.stream.offset, 4);
    assert_eq!(rt; net.free_number(1, NameKind::Window), 6);
    assert_eq!(rt; net.free_number(1, NameKind::Table), 2);
    Ok(())
}
