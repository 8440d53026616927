use crate::{Ask, Deed, Note, Reply, Tray, call, serve, serve_both};
use desk_turns::{Desk, DeskFull, Seat};
use std::alloc::Global;
use std::test::Fail;

// The asks of the thread that posts: the numbers from 1 on.
fn posts(alloc: Global, count: u64) -> Option<Vec<Ask>> {
    let mut asks = Vec::new(alloc);
    for number in 1..=count {
        asks.push(Ask::Post(number)).ok()?;
    }
    Some(asks)
}

fn takes(alloc: Global, count: u64) -> Option<Vec<Ask>> {
    let mut asks = Vec::new(alloc);
    for _number in 0..count {
        asks.push(Ask::Take).ok()?;
    }
    Some(asks)
}

// The notes, replayed by one thread: true where each was answered as a tray that nobody shares would answer it.
fn replays(notes: &[Note]) -> bool {
    let mut item = None;
    let mut stopped = false;
    for note in notes {
        let reply = match note.deed.ask {
            Ask::Post(_) => Reply::Replaced(item),
            Ask::Take if stopped => Reply::Stopped,
            Ask::Take => Reply::Took(item),
            Ask::Stop => Reply::Done,
        };
        if note.deed.reply != reply {
            return false;
        }
        match note.deed.ask {
            Ask::Post(number) => item = Some(number),
            Ask::Take => {
                if !stopped {
                    item = None;
                }
            }
            Ask::Stop => stopped = true,
        }
    }
    true
}

// How many notes have the mark.
fn marked(notes: &[Note], mark: u64) -> usize {
    notes.iter().filter(|note| note.mark == mark).count()
}

// True where the posts with the mark are of 1, 2, 3 and so on.
fn in_order(notes: &[Note], mark: u64) -> bool {
    let mut last = 0;
    for note in notes {
        if let Ask::Post(number) = note.deed.ask {
            if note.mark == mark {
                if number <= last || number - last != 1 {
                    return false;
                }
                last = number;
            }
        }
    }
    true
}

#[test]
fn two_threads_make_one_history(rt: HostRuntime) -> Result<(), Fail> {
    let Ok((desk, seat)) = Desk::open(rt.alloc(), Tray::new(rt.alloc()), 1 << 20) else {
        panic!(rt; "no memory")
    };
    let (Some(first), Some(second)) = (posts(rt.alloc(), 2_000), takes(rt.alloc(), 2_000)) else {
        panic!(rt; "no memory")
    };
    let (one, two) = desk.split(seat);
    let (one, two) = serve_both(&rt, &desk, one, two, first.as_slice(), second.as_slice(), 0);
    let seat = desk.join(one, two);
    let Ok(tray) = desk.close(seat) else {
        panic!(rt; "the value is out")
    };
    let notes = tray.notes.as_slice();
    assert!(rt; marked(notes, 1) == 2_000);
    assert!(rt; marked(notes, 2) == 2_000);
    assert!(rt; in_order(notes, 1));
    assert!(rt; replays(notes));
    Ok(())
}

// A thread that waits longer than it spins sleeps, and has to be woken.
#[test]
fn a_thread_waits_for_a_slow_one(rt: HostRuntime) -> Result<(), Fail> {
    let Ok((desk, seat)) = Desk::open(rt.alloc(), Tray::new(rt.alloc()), 1 << 20) else {
        panic!(rt; "no memory")
    };
    let (Some(first), Some(second)) = (posts(rt.alloc(), 50), takes(rt.alloc(), 50)) else {
        panic!(rt; "no memory")
    };
    let (one, two) = desk.split(seat);
    let (one, two) = serve_both(
        &rt,
        &desk,
        one,
        two,
        first.as_slice(),
        second.as_slice(),
        10_000,
    );
    let seat = desk.join(one, two);
    let Ok(tray) = desk.close(seat) else {
        panic!(rt; "the value is out")
    };
    assert!(rt; tray.notes.len() == 100);
    assert!(rt; replays(tray.notes.as_slice()));
    Ok(())
}

#[test]
fn two_threads_find_the_desk_full(rt: HostRuntime) -> Result<(), Fail> {
    let Ok((desk, seat)) = Desk::open(rt.alloc(), Tray::new(rt.alloc()), 1_000) else {
        panic!(rt; "no memory")
    };
    let (Some(first), Some(second)) = (posts(rt.alloc(), 999), takes(rt.alloc(), 999)) else {
        panic!(rt; "no memory")
    };
    let (one, two) = desk.split(seat);
    let (mut one, two) = serve_both(&rt, &desk, one, two, first.as_slice(), second.as_slice(), 0);
    assert!(rt; call(&rt, &desk, &mut one, 1, Ask::Take, 0) == Err(DeskFull { calls: 1_000 }));
    let seat = desk.join(one, two);
    let Ok(tray) = desk.close(seat) else {
        panic!(rt; "the value is out")
    };
    let notes = tray.notes.as_slice();
    assert!(rt; notes.len() == 1_000);
    assert!(rt; in_order(notes, 1));
    assert!(rt; replays(notes));
    Ok(())
}

#[test]
fn a_stop_and_a_full_desk(rt: HostRuntime) -> Result<(), Fail> {
    let Ok((desk, mut seat)) = Desk::open(rt.alloc(), Tray::new(rt.alloc()), 5) else {
        panic!(rt; "no memory")
    };
    assert!(rt; desk.calls() == 5);
    assert!(rt; call(&rt, &desk, &mut seat, 1, Ask::Post(7), 0) == Ok(Reply::Replaced(None)));
    assert!(rt; call(&rt, &desk, &mut seat, 1, Ask::Take, 0) == Ok(Reply::Took(Some(7))));
    assert!(rt; call(&rt, &desk, &mut seat, 1, Ask::Stop, 0) == Ok(Reply::Done));
    assert!(rt; call(&rt, &desk, &mut seat, 1, Ask::Take, 0) == Ok(Reply::Stopped));
    assert!(rt; call(&rt, &desk, &mut seat, 1, Ask::Post(8), 0) == Ok(Reply::Replaced(None)));
    assert!(rt; call(&rt, &desk, &mut seat, 1, Ask::Take, 0) == Err(DeskFull { calls: 5 }));
    assert!(rt; call(&rt, &desk, &mut seat, 1, Ask::Post(9), 0) == Err(DeskFull { calls: 5 }));
    let Ok(tray) = desk.close(seat) else {
        panic!(rt; "the value is out")
    };
    assert!(rt; tray.item == Some(8));
    assert!(rt; tray.stopped);
    assert!(rt; tray.notes.len() == 5);
    Ok(())
}

#[test]
fn a_desk_for_no_calls(rt: HostRuntime) -> Result<(), Fail> {
    let Ok((desk, mut seat)) = Desk::open(rt.alloc(), Tray::new(rt.alloc()), 0) else {
        panic!(rt; "no memory")
    };
    assert!(rt; call(&rt, &desk, &mut seat, 1, Ask::Stop, 0) == Err(DeskFull { calls: 0 }));
    let Ok(tray) = desk.close(seat) else {
        panic!(rt; "the value is out")
    };
    assert!(rt; !tray.stopped);
    Ok(())
}

#[test]
fn seats_are_split_and_joined(rt: HostRuntime) -> Result<(), Fail> {
    let Ok((desk, mut seat)) = Desk::open(rt.alloc(), Tray::new(rt.alloc()), 4) else {
        panic!(rt; "no memory")
    };
    assert!(rt; call(&rt, &desk, &mut seat, 1, Ask::Post(1), 0) == Ok(Reply::Replaced(None)));
    let (mut one, mut two) = desk.split(seat);
    assert!(rt; call(&rt, &desk, &mut two, 2, Ask::Post(2), 0) == Ok(Reply::Replaced(Some(1))));
    assert!(rt; call(&rt, &desk, &mut one, 1, Ask::Take, 0) == Ok(Reply::Took(Some(2))));
    let mut seat = desk.join(two, one);
    assert!(rt; call(&rt, &desk, &mut seat, 3, Ask::Take, 0) == Ok(Reply::Took(None)));
    let Ok(tray) = desk.close(seat) else {
        panic!(rt; "the value is out")
    };
    assert!(rt; marked(tray.notes.as_slice(), 1) == 2);
    assert!(rt; marked(tray.notes.as_slice(), 2) == 1);
    assert!(rt; marked(tray.notes.as_slice(), 3) == 1);
    Ok(())
}

#[test]
fn a_seat_in_mid_call_keeps_the_value(rt: HostRuntime) -> Result<(), Fail> {
    let Ok((desk, seat)) = Desk::open(rt.alloc(), Tray::new(rt.alloc()), 9) else {
        panic!(rt; "no memory")
    };
    let (one, two) = desk.split(seat);
    let Seat { mut token } = two;
    let Ok(tray) = desk.begin(&rt, &mut token) else {
        panic!(rt; "the desk is full")
    };
    assert!(rt; tray.notes.len() == 0);
    assert!(rt; desk.close(one).is_err());
    Ok(())
}

#[test]
fn a_seat_that_was_dropped_keeps_nothing(rt: HostRuntime) -> Result<(), Fail> {
    let Ok((desk, seat)) = Desk::open(rt.alloc(), Tray::new(rt.alloc()), 9) else {
        panic!(rt; "no memory")
    };
    let (one, two) = desk.split(seat);
    let two = serve(&rt, &desk, two, 2, &[Ask::Post(3), Ask::Stop], 0);
    drop(two);
    let Ok(tray) = desk.close(one) else {
        panic!(rt; "the value is out")
    };
    assert!(rt; tray.item == Some(3));
    assert!(rt; tray.stopped);
    Ok(())
}
