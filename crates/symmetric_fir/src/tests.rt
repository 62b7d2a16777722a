// What no clause says: with memory at hand, filters are built, and cost what was counted by hand.

ghost use Rattle.std.specs.Prelude.{◌≡◌, ℤ, pos, negsuc};

use crate::Mirror;
use net_graph::{NameKind, Net, Stream};
use stage_law::{Class, Range, Ranges, Stage, WeightedSum};
use std::test::Fail;

// Knows the one stream of zeros.
#[derive(Drop)]
struct Silent {
    range: Range,
    ghost none: { range ≡ record { lo = pos 0; hi = pos 0 } },
}

impl Ranges for Silent {
    ghost streams = { λ _ v. (k : ℤ) → v k ≡ pos 0 };

    ghost causal = { λ _. record { each = λ v is n. is (negsuc n) } };

    fn range(&self, _sum: &WeightedSum, _class: Class) -> Range {
        self.range
    }
}

#[test]
fn builds_one_pair_and_a_centre(rt: HostRuntime) -> Result<(), Fail> {
    let filter = Mirror::<0>::new(rt.alloc(), &[1, 2, 1], 1)?;
    assert_eq!(rt; filter.delay(1), 3);
    assert_eq!(rt; filter.cost().adders, 2);
    assert_eq!(rt; filter.cost().windows, 3);
    let mut net = Net::new(rt.alloc());
    let input = net.input(4)?;
    net.set_group(1);
    let from = Stream {
        node: input,
        period: 1,
        offset: 0,
    };
    let silent = Silent {
        range: Range { lo: 0, hi: 0 },
    };
    let emitted = filter.emit(rt.alloc(), &mut net, from, &silent)?;
    assert_eq!(rt; emitted.stream.period, 1);
    assert_eq!(rt; emitted.stream.offset, 3);
    assert_eq!(rt; net.free_number(1, NameKind::Window), 3);
    assert_eq!(rt; net.free_number(1, NameKind::PreAdder), 1);
    assert_eq!(rt; net.free_number(1, NameKind::Register), 2);
    Ok(())
}

#[test]
fn builds_a_difference(rt: HostRuntime) -> Result<(), Fail> {
    let filter = Mirror::<1>::new(rt.alloc(), &[1, 0, -1], 2)?;
    assert_eq!(rt; filter.delay(1), 2);
    assert_eq!(rt; filter.cost().adders, 1);
    let mut net = Net::new(rt.alloc());
    let input = net.input(4)?;
    net.set_group(1);
    let from = Stream {
        node: input,
        period: 3,
        offset: 1,
    };
    let silent = Silent {
        range: Range { lo: 0, hi: 0 },
    };
    let emitted = filter.emit(rt.alloc(), &mut net, from, &silent)?;
    assert_eq!(rt; emitted.stream.period, 6);
    assert_eq!(rt; emitted.stream.offset, 3);
    assert_eq!(rt; net.free_number(1, NameKind::PreAdder), 1);
    assert_eq!(rt; net.free_number(1, NameKind::Register), 0);
    Ok(())
}

#[test]
fn counts_by_hand(rt: HostRuntime) -> Result<(), Fail> {
    let negative = Mirror::<0>::new(rt.alloc(), &[-1, 0, -1], 1)?;
    assert_eq!(rt; negative.cost().adders, 2);
    assert_eq!(rt; negative.delay(1), 2);
    let even = Mirror::<0>::new(rt.alloc(), &[3, 3], 1)?;
    assert_eq!(rt; even.cost().adders, 2);
    assert_eq!(rt; even.delay(1), 3);
    let silent = Mirror::<0>::new(rt.alloc(), &[0, 0, 0], 1)?;
    assert_eq!(rt; silent.cost().adders, 0);
    assert_eq!(rt; silent.cost().windows, 3);
    assert_eq!(rt; silent.delay(1), 2);
    Ok(())
}
