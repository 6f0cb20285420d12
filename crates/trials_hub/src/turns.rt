//! Threads that take turns.

ghost use Rattle.std.specs.Prelude.{◌≡◌};

use crate::numbers::Numbers;
use hub_lock::{Hub, Seat};
use std::process::Abort;
use std::sync::Wait;
use std::test::Fail;
use std::thread::{Threads, join};

/// A thousand turns with this number.
fn take_turns<R: Wait>(rt: &R, hub: &Hub<Numbers>, mut seat: Seat, number: u8) -> Seat
    requires { seat.hub ≡ hub.now }
    ensures { result.hub ≡ hub.now }
{
    for _ in 0..1000 {
        hub.turn(rt, &mut seat, number);
    }
    seat
}

/// Two threads, with a number and the next.
fn two<R: Threads + Wait + Sync>(
    rt: &R,
    hub: &Hub<Numbers>,
    number: u8,
    first: Seat,
    second: Seat,
) -> Seat
    requires first { first.hub ≡ hub.now }
    requires second { second.hub ≡ hub.now }
    ensures { result.hub ≡ hub.now }
{
    let (mut one, other) = join(
        rt,
        || -> Seat
            requires { first.hub ≡ hub.now }
            ensures { result.hub ≡ hub.entry.now }
        { take_turns(rt, hub, first, number) },
        || -> Seat
            requires { second.hub ≡ hub.now }
            ensures { result.hub ≡ hub.entry.now }
        { take_turns(rt, hub, second, number.wrapping_add(1)) },
    );
    hub.join(&mut one, other);
    one
}

/// Four threads, with a number and the next three.
fn four<R: Threads + Wait + Sync>(
    rt: &R,
    hub: &Hub<Numbers>,
    number: u8,
    first: (Seat, Seat),
    second: (Seat, Seat),
) -> Seat
    requires first { (first.0.hub ≡ hub.now) × (first.1.hub ≡ hub.now) }
    requires second { (second.0.hub ≡ hub.now) × (second.1.hub ≡ hub.now) }
    ensures { result.hub ≡ hub.now }
{
    let (a, b) = first;
    let (c, d) = second;
    let (mut one, other) = join(
        rt,
        || -> Seat
            requires { (a.hub ≡ hub.now) × (b.hub ≡ hub.now) }
            ensures { result.hub ≡ hub.entry.now }
        { two(rt, hub, number, a, b) },
        || -> Seat
            requires { (c.hub ≡ hub.now) × (d.hub ≡ hub.now) }
            ensures { result.hub ≡ hub.entry.now }
        { two(rt, hub, number.wrapping_add(2), c, d) },
    );
    hub.join(&mut one, other);
    one
}

/// A new seat.
fn seat_of<A: Abort>(rt: &A, hub: &Hub<Numbers>, seat: &mut Seat) -> Seat
    requires { seat.old.hub ≡ hub.now }
    ensures same { seat.new.hub ≡ hub.now }
    ensures new { result.hub ≡ hub.now }
{
    match hub.split(seat) {
        Ok(new) => new,
        Err(_) => panic!(rt; "a seat can be split"),
    }
}

#[test]
fn two_threads_take_a_thousand_turns_each(rt: HostRuntime) -> Result<(), Fail> {
    let Ok((hub, mut seat)) = Hub::new(rt.alloc(), Numbers::new(rt.alloc(), 9)) else {
        panic!(rt; "there is memory")
    };
    let other = seat_of(&rt, &hub, &mut seat);
    let last = two(&rt, &hub, 1, seat, other);
    assert_eq!(rt; last.front(), 2000);
    let state = hub.close(&rt, last);
    assert_eq!(rt; state.added.len(), 2000);
    for number in 1..3 {
        let count = state.added.iter().filter(|n| **n == number).count();
        assert_eq!(rt; count, 1000);
    }
    Ok(())
}

#[test]
fn eight_threads_take_a_thousand_turns_each(rt: HostRuntime) -> Result<(), Fail> {
    let Ok((hub, mut seat)) = Hub::new(rt.alloc(), Numbers::new(rt.alloc(), 9)) else {
        panic!(rt; "there is memory")
    };
    let b = seat_of(&rt, &hub, &mut seat);
    let c = seat_of(&rt, &hub, &mut seat);
    let d = seat_of(&rt, &hub, &mut seat);
    let e = seat_of(&rt, &hub, &mut seat);
    let f = seat_of(&rt, &hub, &mut seat);
    let g = seat_of(&rt, &hub, &mut seat);
    let h = seat_of(&rt, &hub, &mut seat);
    let (mut one, other) = join(
        &rt,
        || -> Seat
            requires { (seat.hub ≡ hub) × (b.hub ≡ hub) × (c.hub ≡ hub) × (d.hub ≡ hub) }
            ensures { result.hub ≡ hub }
        { four(&rt, &hub, 1, (seat, b), (c, d)) },
        || -> Seat
            requires { (e.hub ≡ hub) × (f.hub ≡ hub) × (g.hub ≡ hub) × (h.hub ≡ hub) }
            ensures { result.hub ≡ hub }
        { four(&rt, &hub, 5, (e, f), (g, h)) },
    );
    hub.join(&mut one, other);
    assert_eq!(rt; one.front(), 8000);
    let state = hub.close(&rt, one);
    assert_eq!(rt; state.added.len(), 8000);
    for number in 1..9 {
        let count = state.added.iter().filter(|n| **n == number).count();
        assert_eq!(rt; count, 1000);
    }
    Ok(())
}

#[test]
fn a_turn_on_one_seat_is_seen_by_another_once_they_are_joined(rt: HostRuntime) -> Result<(), Fail> {
    let Ok((hub, mut first)) = Hub::new(rt.alloc(), Numbers::new(rt.alloc(), 9)) else {
        panic!(rt; "there is memory")
    };
    let mut second = seat_of(&rt, &hub, &mut first);
    assert_eq!(rt; hub.turn(&rt, &mut second, 7), Some(0));
    assert_eq!(rt; (second.front(), second.turns(), second.sign()), (1, 1, 0));
    assert_eq!(rt; (first.front(), first.turns()), (0, 0));
    hub.join(&mut first, second);
    assert_eq!(rt; (first.front(), first.turns()), (1, 0));
    assert_eq!(rt; hub.turn(&rt, &mut first, 8), Some(1));
    assert_eq!(rt; first.front(), 2);
    let state = hub.close(&rt, first);
    assert_eq!(rt; state.added.as_slice(), [7, 8].as_slice());
    Ok(())
}

#[test]
fn a_turn_without_a_record_is_counted_and_sees_what_others_added(
    rt: HostRuntime,
) -> Result<(), Fail> {
    let Ok((hub, mut first)) = Hub::new(rt.alloc(), Numbers::new(rt.alloc(), 9)) else {
        panic!(rt; "there is memory")
    };
    let mut second = seat_of(&rt, &hub, &mut first);
    assert_eq!(rt; hub.turn(&rt, &mut second, 7), Some(0));
    assert_eq!(rt; hub.turn(&rt, &mut first, 0), Some(1));
    assert_eq!(rt; (first.front(), first.turns()), (1, 1));
    assert_eq!(rt; hub.turn(&rt, &mut first, 8), Some(1));
    hub.join(&mut first, second);
    assert_eq!(rt; (first.front(), first.turns()), (2, 2));
    let state = hub.close(&rt, first);
    assert_eq!(rt; state.added.as_slice(), [7, 8].as_slice());
    Ok(())
}

#[test]
fn a_seat_without_numbers_to_give_is_not_split_and_takes_turns_still(
    rt: HostRuntime,
) -> Result<(), Fail> {
    let Ok((hub, mut first)) = Hub::new(rt.alloc(), Numbers::new(rt.alloc(), 9)) else {
        panic!(rt; "there is memory")
    };
    let mut second = seat_of(&rt, &hub, &mut first);
    let mut third = seat_of(&rt, &hub, &mut second);
    let mut fourth = seat_of(&rt, &hub, &mut third);
    let mut last = seat_of(&rt, &hub, &mut fourth);
    assert!(rt; hub.split(&mut last).is_err());
    assert_eq!(rt; hub.turn(&rt, &mut last, 7), Some(0));
    hub.join(&mut first, last);
    assert_eq!(rt; first.front(), 1);
    let state = hub.close(&rt, first);
    assert_eq!(rt; state.added.as_slice(), [7].as_slice());
    Ok(())
}
