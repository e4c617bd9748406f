//! Seats that take turns at one history.
ghost use Rattle.std.specs.Prelude.{◌≡◌, IfOk};
ghost use Rattle.worked_parts.specs.Samples.{AreSeats};

use std::alloc::{AllocError, Global};
use std::sync::Wait;
use std::test::Fail;
use std::thread::{Threads, join};
use steps::{Steps, visits};
use task_base::Rows;
use turn_table::{Seat, Turnstile};

mod steps;

/// The driver and three workers.
#[derive(Drop)]
struct Seats {
    driver: Seat<Steps>,
    one: Seat<Steps>,
    two: Seat<Steps>,
    three: Seat<Steps>,
}

fn open(alloc: Global) -> Result<(Turnstile<Steps>, Seats), AllocError>
    ensures { IfOk result (λ made. AreSeats made.0 made.1.driver made.1.one made.1.two made.1.three) }
{
    let (turnstile, driver) = match Turnstile::new(alloc, Steps::new(alloc)) {
        Ok(made) => made,
        Err((_steps, error)) => return Err(error),
    };
    let (driver, one) = turnstile.split(driver);
    let (driver, two) = turnstile.split(driver);
    let (driver, three) = turnstile.split(driver);
    let seats = Seats {
        driver,
        one,
        two,
        three,
    };
    Ok((turnstile, seats))
}

#[test]
fn looks_do_not_wait_for_the_turn(rt: HostRuntime) -> Result<(), Fail> {
    let (turnstile, seats) = open(rt.alloc())?;
    let Seats {
        driver,
        mut one,
        ..
    } = seats;
    let (steps, holding) = turnstile.turn(&rt, driver);
    assert_eq!(rt; turnstile.look(&mut one), 0);
    let driver = turnstile.back(steps, holding);
    let _driver = visits(&rt, &turnstile, driver, 1);
    assert_eq!(rt; turnstile.look(&mut one), 1);
    Ok(())
}

/// Each seat visits so many times, one seat after the other.
fn in_turn<R: Wait>(rt: &R, turnstile: &Turnstile<Steps>, seats: Seats, count: u32) -> Seats
    requires { AreSeats turnstile.now seats.driver seats.one seats.two seats.three }
    ensures { AreSeats turnstile.now result.driver result.one result.two result.three }
{
    Seats {
        driver: visits(rt, turnstile, seats.driver, count),
        one: visits(rt, turnstile, seats.one, count),
        two: visits(rt, turnstile, seats.two, count),
        three: visits(rt, turnstile, seats.three, count),
    }
}

/// Each seat visits so many times, and all at once.
fn at_once<R: Threads + Wait + Sync>(
    rt: &R,
    turnstile: &Turnstile<Steps>,
    seats: Seats,
    count: u32,
) -> Seats
    requires { AreSeats turnstile.now seats.driver seats.one seats.two seats.three }
    ensures { AreSeats turnstile.now result.driver result.one result.two result.three }
{
    let Seats {
        driver,
        one,
        two,
        three,
    } = seats;
    let ((driver, one), (two, three)) = join(
        rt,
        move || -> (Seat<Steps>, Seat<Steps>)
            requires of { driver.of ≡ turnstile.now }
            requires other { one.of ≡ turnstile.now }
        { two_at_once(rt, turnstile, driver, one, count) },
        move || -> (Seat<Steps>, Seat<Steps>)
            requires of { two.of ≡ turnstile.now }
            requires other { three.of ≡ turnstile.now }
        { two_at_once(rt, turnstile, two, three, count) },
    );
    Seats {
        driver,
        one,
        two,
        three,
    }
}

fn two_at_once<R: Threads + Wait + Sync>(
    rt: &R,
    turnstile: &Turnstile<Steps>,
    seat: Seat<Steps>,
    other: Seat<Steps>,
    count: u32,
) -> (Seat<Steps>, Seat<Steps>)
    requires of { seat.of ≡ turnstile.now }
    requires other { other.of ≡ turnstile.now }
    ensures of { (result.0.of ≡ turnstile.now) × (result.1.of ≡ turnstile.now) }
    ensures numbers { (result.0.number ≡ seat.number) × (result.1.number ≡ other.number) }
    ensures made { result.0.made ≡ seat.made }
{
    join(
        rt,
        move || visits(rt, turnstile, seat, count),
        move || visits(rt, turnstile, other, count),
    )
}

/// How many entries the history has in the end.
fn entries_at_close(
    alloc: Global,
    turnstile: Turnstile<Steps>,
    seats: Seats,
) -> Result<usize, AllocError>
    requires { AreSeats turnstile seats.driver seats.one seats.two seats.three }
{
    let Seats {
        driver,
        one,
        two,
        three,
    } = seats;
    let rest = Rows::from_vec(vec![in alloc; one, two, three]?);
    let (steps, _driver) = turnstile.close(driver, rest);
    Ok(steps.entries.len())
}

#[test]
fn seats_enter_by_turns_and_the_close_gives_all(rt: HostRuntime) -> Result<(), Fail> {
    let (turnstile, seats) = open(rt.alloc())?;
    let mut seats = in_turn(&rt, &turnstile, seats, 2);
    assert_eq!(rt; turnstile.front(&mut seats.three), None);
    let mut seats = in_turn(&rt, &turnstile, seats, 1);
    assert_eq!(rt; turnstile.front(&mut seats.three), Some(3));
    assert_eq!(rt; entries_at_close(rt.alloc(), turnstile, seats)?, 4);
    Ok(())
}

#[test]
fn four_threads_take_turns(rt: HostRuntime) -> Result<(), Fail> {
    let (turnstile, seats) = open(rt.alloc())?;
    let seats = at_once(&rt, &turnstile, seats, 500);
    let seats = in_turn(&rt, &turnstile, seats, 2);
    let seats = in_turn(&rt, &turnstile, seats, 1);
    assert_eq!(rt; entries_at_close(rt.alloc(), turnstile, seats)?, 4);
    Ok(())
}
