use grd_base::{
    ActionId, ActionSet, Bits, OutOfMemory, by_width, is_same, members_below, packed, same_members,
    same_order, same_whole, whole,
};
use std::alloc::Global;
use std::test::Fail;

// The set of these numbers.
fn bits(numbers: &[u32]) -> Result<Bits<2>, Fail> {
    let mut set = Bits::new();
    for n in numbers {
        if *n >= 128 {
            return Err("a number of two words")?;
        }
        set.insert(*n);
    }
    Ok(set)
}

// The members of the set, rising.
fn members(alloc: Global, set: &Bits<2>) -> Result<Vec<u32>, Fail> {
    let mut members = Vec::new(alloc);
    for n in 0..128 {
        if set.contains(n) {
            members.push(n)?;
        }
    }
    Ok(members)
}

// What is done with a set.
#[derive(Clone, Copy, Debug)]
enum Change {
    Nothing,
    Remove(u32),
    MinusIn(&'static [u32]),
    UnionIn(&'static [u32]),
}

fn changed(numbers: &[u32], change: Change) -> Result<Bits<2>, Fail> {
    let mut set = bits(numbers)?;
    match change {
        Change::Nothing => {}
        Change::Remove(n) if n < 128 => set.remove(n),
        Change::Remove(_) => return Err("a number of two words")?,
        Change::MinusIn(others) => set.minus_in(&bits(others)?),
        Change::UnionIn(others) => set.union_in(&bits(others)?),
    }
    Ok(set)
}

fn members_after(alloc: Global, numbers: &[u32], change: Change) -> Result<Vec<u32>, Fail> {
    members(alloc, &changed(numbers, change)?)
}

const LOW: &[u32] = &[0, 63, 64, 127];

const HIGH: &[u32] = &[64, 65];

const ALL: &[u32] = &[0, 63, 64, 65, 127];

#[test]
fn bits_are_a_set_of_numbers(rt: HostRuntime) -> Result<(), Fail> {
    let rows: [(&[u32], Change, &[u32]); 7] = [
        (LOW, Change::Nothing, LOW),
        (HIGH, Change::Nothing, HIGH),
        (HIGH, Change::Remove(65), &[64]),
        (LOW, Change::MinusIn(&[64]), &[0, 63, 127]),
        (&[0, 63, 127], Change::UnionIn(&[64]), LOW),
        (&[64], Change::UnionIn(LOW), LOW),
        (LOW, Change::UnionIn(HIGH), ALL),
    ];
    for (numbers, change, wanted) in rows {
        let found = members_after(rt.alloc(), numbers, change)?;
        assert!(rt;
            found.as_slice() == wanted,
            "{numbers:?} {change:?}: {found:?}"
        );
    }
    Ok(())
}

// Whether the first set is empty, whether it is a subset of the second, and whether the two are the same.
fn compared(first: &[u32], second: &[u32]) -> Result<(bool, bool, bool), Fail> {
    let a = bits(first)?;
    let b = bits(second)?;
    Ok((a.is_empty(), a.is_subset(&b), is_same(&a, &b) && a == b))
}

#[test]
fn sets_are_compared_by_their_members(rt: HostRuntime) -> Result<(), Fail> {
    let rows: [(&[u32], &[u32], (bool, bool, bool)); 6] = [
        (&[], LOW, (true, true, false)),
        (HIGH, LOW, (false, false, false)),
        (&[64], LOW, (false, true, false)),
        (LOW, &[64], (false, false, false)),
        (&[64, 127, 0, 63], LOW, (false, true, true)),
        (&[], &[], (true, true, true)),
    ];
    for (first, second, wanted) in rows {
        assert_eq!(rt;
            compared(first, second)?,
            wanted,
            "{first:?} and {second:?}"
        );
    }
    Ok(())
}

#[test]
fn laws_of_bits_hold_of_a_set(rt: HostRuntime) -> Result<(), Fail> {
    let set = bits(LOW)?;
    same_members(&set, &set);
    members_below(&set);
    whole(&set);
    same_order::<2>();
    same_whole::<2>();
    packed::<2>();
    Ok(())
}

// The members of the set of the list, with one more where there is one.
fn listed(alloc: Global, list: &[ActionId], more: Option<ActionId>) -> Result<Vec<ActionId>, Fail> {
    let set = ActionSet::from_list(alloc, list)?;
    match more {
        Some(a) => Ok(Vec::from_slice(alloc, set.with(alloc, a)?.as_slice())?),
        None => Ok(Vec::from_slice(alloc, set.as_slice())?),
    }
}

fn has(alloc: Global, list: &[ActionId], a: ActionId) -> Result<bool, Fail> {
    let set = ActionSet::from_list(alloc, list)?;
    Ok(set.contains(a))
}

const TWO: ActionId = ActionId(2);

const THREE: ActionId = ActionId(3);

const FIVE: ActionId = ActionId(5);

const NINE: ActionId = ActionId(9);

const REPEATS: &[ActionId] = &[FIVE, TWO, NINE, TWO, FIVE];

const FOUR: &[ActionId] = &[TWO, THREE, FIVE, NINE];

#[test]
fn action_sets_rise_without_repeats(rt: HostRuntime) -> Result<(), Fail> {
    assert!(rt; ActionSet::new(rt.alloc()).as_slice().is_empty());
    let rows: [(&[ActionId], Option<ActionId>, &[ActionId]); 4] = [
        (&[], None, &[]),
        (REPEATS, None, &[TWO, FIVE, NINE]),
        (REPEATS, Some(THREE), FOUR),
        (FOUR, Some(NINE), FOUR),
    ];
    for (list, more, wanted) in rows {
        let found = listed(rt.alloc(), list, more)?;
        assert!(rt;
            found.as_slice() == wanted,
            "{list:?} with {more:?}: {found:?}"
        );
    }
    for (a, wanted) in [(NINE, true), (THREE, false)] {
        assert_eq!(rt; has(rt.alloc(), REPEATS, a)?, wanted, "{a:?}");
    }
    Ok(())
}

#[test]
fn want_of_memory_has_a_text(rt: HostRuntime) -> Result<(), Fail> {
    let text = format!(in rt.alloc(); "{OutOfMemory}")?;
    assert_eq!(rt; text.as_str(), "out of memory");
    Ok(())
}

// The width with which it is called.
fn width<const W: usize>() -> usize {
    W
}

fn width_behind<T: Copy, const W: usize>(_item: T) -> usize {
    W
}

fn widths(atoms: u32) -> (usize, usize) {
    (
        by_width!(atoms, width()),
        by_width!(atoms, width_behind::<_>(atoms)),
    )
}

#[test]
fn width_is_the_least_that_holds_the_atoms(rt: HostRuntime) {
    let rows = [
        (0, 1),
        (64, 1),
        (65, 2),
        (128, 2),
        (129, 4),
        (256, 4),
        (257, 8),
        (512, 8),
        (513, 16),
        (1024, 16),
        (1025, 32),
        (2048, 32),
        (2049, 64),
        (4096, 64),
    ];
    for (atoms, least) in rows {
        assert_eq!(rt; widths(atoms), (least, least), "{atoms}");
    }
}
