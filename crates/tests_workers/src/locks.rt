//! A diary that threads write under the lock, and what they read back.
ghost use Rattle.std.specs.Prelude.{◌≡◌, ◌<◌, ◌≤◌, [], ◌∷◌, ◌++◌, MatchBool};
ghost use Rattle.seat_lock.specs.Words.{IsOf};

use seat_lock::{CloseFault, Journaled, Pass, SeatLock};
use std::alloc::Global;
use std::sync::Wait;
use std::sync::atomic::{AtomicU64, Ordering};
use std::test::Fail;
use std::thread;

#[derive(Clone, Copy, Debug, PartialEq, Eq)]
struct Line {
    by: u32,
    text: u64,
}

#[derive(Drop)]
struct Diary {
    owner: u64,
    lines: Vec<Line>,
}

impl Journaled for Diary {
    type Base = u64;

    type Entry = Line;

    ghost base = { λ d. d.owner };

    ghost journal = { λ d. d.lines.items };

    ghost number = { λ l. l.by };
}

impl Diary {
    fn new(alloc: Global, owner: u64) -> Diary
        ensures { (result.owner ≡ owner) × (result.lines.items ≡ []) }
    {
        Diary {
            owner,
            lines: Vec::new(alloc),
        }
    }

    // Whether there was memory for the line.
    fn write(&mut self, by: u32, text: u64) -> bool
        ensures owner { self.new.owner ≡ self.old.owner }
        ensures lines { MatchBool result
            (self.new.lines.items ≡ self.old.lines.items ++ record { by = by; text = text } ∷ [])
            (self.new.lines.items ≡ self.old.lines.items) }
    {
        self.lines.push(Line { by, text }).is_ok()
    }

    fn has(&self, line: Line) -> bool {
        self.lines.contains(&line)
    }
}

// Writes a line in one turn, and says whether it stands there.
fn note<H: Wait>(
    rt: &H,
    lock: &SeatLock<Diary>,
    pass: Pass<Diary>,
    text: u64,
) -> (Pass<Diary>, bool)
    requires lock { IsOf pass lock.now }
    ensures pass { IsOf result.0 lock.now × (result.0.number ≡ pass.number) }
{
    let number = pass.number();
    let mut held = lock.turn(rt, pass);
    let done = held.value().write(number, text);
    (held.give(), done)
}

// Whether a line stands in the diary in the pass's next turn.
fn finds<H: Wait>(
    rt: &H,
    lock: &SeatLock<Diary>,
    pass: Pass<Diary>,
    line: Line,
) -> (Pass<Diary>, bool)
    requires lock { IsOf pass lock.now }
    ensures pass { IsOf result.0 lock.now × (result.0.number ≡ pass.number) }
{
    let mut held = lock.turn(rt, pass);
    let found = held.value().has(line);
    (held.give(), found)
}

#[test]
fn lock_reads_back(rt: HostRuntime) -> Result<(), Fail> {
    let alloc = rt.alloc();
    let Ok((lock, pass)) = SeatLock::new(alloc, Diary::new(alloc, 7), 2) else {
        panic!(rt; "no lock")
    };
    let line = Line { by: 0, text: 10 };
    let (pass, none) = finds(&rt, &lock, pass, line);
    let (pass, written) = note(&rt, &lock, pass, 10);
    let (pass, own) = finds(&rt, &lock, pass, line);
    assert!(rt; pass.number() == 0 && pass.left() == 1);
    let (zero, one) = lock.split(pass);
    assert!(rt; one.number() == 1 && zero.left() == 0 && one.left() == 0);
    let (one, other) = finds(&rt, &lock, one, line);
    assert!(rt; !none && written && own && other);
    let Err(CloseFault { lock, pass, made }) = lock.close(zero) else {
        panic!(rt; "closed while a pass is out")
    };
    assert!(rt; made == 2 && pass.joined() == 1);
    let pass = lock.join(pass, one);
    assert!(rt; pass.joined() == 2);
    let Ok(diary) = lock.close(pass) else {
        panic!(rt; "a pass is missing")
    };
    assert!(rt; diary.owner == 7 && diary.lines.as_slice() == [line].as_slice());
    Ok(())
}

// Writes so many lines, each in a turn of its own.
fn note_many<H: Wait>(rt: &H, lock: &SeatLock<Diary>, pass: Pass<Diary>, count: u64) -> Pass<Diary>
    requires lock { IsOf pass lock.now }
    ensures pass { IsOf result lock.now × (result.number ≡ pass.number) }
{
    let mut pass = pass;
    for text in 0..count {
        let (next, _) = note(rt, lock, pass, text);
        pass = next;
    }
    pass
}

// The texts of a pass, in order.
fn texts_of(alloc: Global, diary: &Diary, by: u32) -> Result<Vec<u64>, Fail> {
    let mut texts = Vec::new(alloc);
    for line in diary.lines.iter() {
        if line.by == by {
            texts.push(line.text)?;
        }
    }
    Ok(texts)
}

#[test]
fn two_threads_write_each_line_once(rt: HostRuntime) -> Result<(), Fail> {
    let alloc = rt.alloc();
    let Ok((lock, pass)) = SeatLock::new(alloc, Diary::new(alloc, 7), 64) else {
        panic!(rt; "no lock")
    };
    let (zero, one) = lock.split(pass);
    let shared = &lock;
    let (zero, one) = thread::join(
        &rt,
        move || -> Pass<Diary>
            requires { IsOf zero shared.now }
            ensures { (result.seat.table_id ≡ zero.seat.table_id) × (result.number ≡ zero.number) }
        { note_many(&rt, shared, zero, 5000) },
        move || -> Pass<Diary>
            requires { IsOf one shared.now }
            ensures { (result.seat.table_id ≡ one.seat.table_id) × (result.number ≡ one.number) }
        { note_many(&rt, shared, one, 5000) },
    );
    let pass = lock.join(zero, one);
    let Ok(diary) = lock.close(pass) else {
        panic!(rt; "a pass is missing")
    };
    assert_eq!(rt; diary.lines.len(), 10000);
    for by in 0..2 {
        let texts = texts_of(alloc, &diary, by)?;
        assert_eq!(rt; texts.len(), 5000);
        for text in 0..5000u64 {
            assert!(rt; texts.as_slice().get(text as usize) == Some(&text));
        }
    }
    Ok(())
}

// Waits until a line stands in the diary, and tells of each wait in `waits` before it begins.
fn wait_for<H: Wait>(
    rt: &H,
    lock: &SeatLock<Diary>,
    pass: Pass<Diary>,
    line: Line,
    waits: &AtomicU64,
) -> Pass<Diary>
    requires lock { IsOf pass lock.now }
    ensures pass { IsOf result lock.now × (result.number ≡ pass.number) }
{
    let mut pass = pass;
    for _ in rt.forever() {
        let (next, found) = finds(rt, lock, pass, line);
        if found {
            return next;
        }
        waits.fetch_add(1, Ordering::SeqCst);
        pass = lock.wait(rt, next);
    }
    unreachable!()
}

// Writes a line once the other pass has begun to wait.
fn note_late<H: Wait>(
    rt: &H,
    lock: &SeatLock<Diary>,
    pass: Pass<Diary>,
    text: u64,
    waits: &AtomicU64,
) -> Pass<Diary>
    requires lock { IsOf pass lock.now }
    ensures pass { IsOf result lock.now × (result.number ≡ pass.number) }
{
    for _ in rt.forever() {
        if waits.load(Ordering::SeqCst) > 0 {
            let (pass, _) = note(rt, lock, pass, text);
            return pass;
        }
    }
    unreachable!()
}

#[test]
fn a_give_wakes_who_waits(rt: HostRuntime) -> Result<(), Fail> {
    let alloc = rt.alloc();
    for text in 0..200u64 {
        let Ok((lock, pass)) = SeatLock::new(alloc, Diary::new(alloc, 7), 2) else {
            panic!(rt; "no lock")
        };
        let (zero, one) = lock.split(pass);
        let (shared, line, waits) = (&lock, Line { by: 0, text }, AtomicU64::new(0));
        let begun = &waits;
        let (zero, one) = thread::join(
            &rt,
            move || -> Pass<Diary>
                requires { IsOf zero shared.now }
                ensures { (result.seat.table_id ≡ zero.seat.table_id)
                    × (result.number ≡ zero.number) }
            { note_late(&rt, shared, zero, text, begun) },
            move || -> Pass<Diary>
                requires { IsOf one shared.now }
                ensures { (result.seat.table_id ≡ one.seat.table_id)
                    × (result.number ≡ one.number) }
            { wait_for(&rt, shared, one, line, begun) },
        );
        assert!(rt; waits.load(Ordering::SeqCst) > 0);
        let pass = lock.join(zero, one);
        let Ok(diary) = lock.close(pass) else {
            panic!(rt; "a pass is missing")
        };
        assert!(rt; diary.lines.as_slice() == [line].as_slice());
    }
    Ok(())
}
