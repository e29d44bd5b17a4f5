ghost use Rattle.std.specs.Prelude.{◌≡◌, ◌≤◌, length};

use grd_base::Bits;
use state_store::StateStore;
use std::alloc::Global;
use std::test::Fail;

// The state with this one member; without it where W words are too few.
fn only<const W: usize>(n: u32) -> Bits<W>
    requires { W ≤ 64 }
{
    let mut s = Bits::new();
    if (n as usize) < 64 * W {
        s.insert(n);
    }
    s
}

// The numbers that the states get, one after the other.
fn insert<const W: usize>(
    alloc: Global,
    store: &mut StateStore<W>,
    members: &[u32; 6],
) -> Result<Vec<u32>, Fail>
    requires width { W ≤ 64 }
    requires empty { length store.old ≡ 0 }
{
    let mut numbers = Vec::new(alloc);
    for n in members {
        numbers.push(store.number_of(only(*n))?)?;
    }
    Ok(numbers)
}

// The numbers that the states with these one members get, one after the other.
fn numbers<const W: usize>(alloc: Global, members: &[u32; 6]) -> Result<Vec<u32>, Fail>
    requires { W ≤ 64 }
{
    let mut store = StateStore::<W>::new(alloc);
    insert(alloc, &mut store, members)
}

// Whether the number is that of the state with the one member; without a member, whether it is that of none.
fn is<const W: usize>(store: &StateStore<W>, number: u32, member: Option<u32>) -> bool
    requires { W ≤ 64 }
{
    match member {
        Some(n) => store.get(number) == Some(&only(n)),
        None => store.get(number).is_none(),
    }
}

// The same where the states with these members were inserted.
fn is_at<const W: usize>(
    alloc: Global,
    members: &[u32; 6],
    number: u32,
    member: Option<u32>,
) -> Result<bool, Fail>
    requires { W ≤ 64 }
{
    let mut store = StateStore::<W>::new(alloc);
    insert(alloc, &mut store, members)?;
    Ok(is(&store, number, member))
}

const LOW: [u32; 6] = [5, 63, 5, 0, 63, 0];

const HIGH: [u32; 6] = [4095, 64, 4095, 0, 64, 0];

#[test]
fn a_state_keeps_its_first_number(rt: HostRuntime) -> Result<(), Fail> {
    let wanted = [0, 1, 0, 2, 1, 2];
    assert!(rt; numbers::<1>(rt.alloc(), &LOW)?.as_slice() == wanted.as_slice());
    assert!(rt; numbers::<64>(rt.alloc(), &HIGH)?.as_slice() == wanted.as_slice());
    Ok(())
}

#[test]
fn a_number_has_its_state(rt: HostRuntime) -> Result<(), Fail> {
    let rows = [
        (0, Some(5), Some(4095)),
        (1, Some(63), Some(64)),
        (2, Some(0), Some(0)),
        (3, None, None),
        (u32::MAX, None, None),
    ];
    for (number, low, high) in rows {
        assert!(rt; is_at::<1>(rt.alloc(), &LOW, number, low)?, "{number}");
        assert!(rt; is_at::<64>(rt.alloc(), &HIGH, number, high)?, "{number}");
    }
    Ok(())
}
