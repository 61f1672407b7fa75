//! Long walks by picks that are drawn.

ghost use Rattle.boolean_programs.specs.Programs.{program_of};
ghost use Rattle.boolean_programs.specs.Structure.{IsRead};
ghost use Rattle.boolean_meaning.specs.HeldStates.{IsHeld};

use crate::lock::LOCK;
use crate::reading::read;
use crate::states::{copied, same};
use crate::walks::LOOPING;
use boolean_meaning::{State, is_move, start, step};
use boolean_programs::{Point, Proc, Program, Statement};
use std::alloc::Global;
use wpds_base::OutOfMemory;
use wpds_port::ReadFault;

/// What a walk met.
#[derive(Drop)]
struct Met {
    moves: u32,
    ends: u32,
    /// Steps that are no moves, and states that changed without one.
    wrong: u32,
    /// The points that stood on top, each once.
    points: Vec<Point>,
}

impl Met {
    fn new(alloc: Global) -> Met {
        Met {
            moves: 0,
            ends: 0,
            wrong: 0,
            points: Vec::new(alloc),
        }
    }

    // Sees which point stands on top.
    fn see(&mut self, state: &State) -> Result<(), OutOfMemory> {
        if let Some(top) = state.frames.get(0) {
            if !self.points.contains(&top.point) {
                self.points.push(top.point)?;
            }
        }
        Ok(())
    }

    fn count(&mut self, moved: bool, is_right: bool) {
        if moved {
            self.moves = self.moves.saturating_add(1);
        } else {
            self.ends = self.ends.saturating_add(1);
        }
        if !is_right {
            self.wrong = self.wrong.saturating_add(1);
        }
    }
}

// Steps once by a pick, and begins anew where there is no move.
fn walk_on(
    alloc: Global,
    program: &Program,
    now: &mut State,
    met: &mut Met,
    drawn: u64,
) -> Result<(), OutOfMemory>
    requires read { IsRead (program_of program.now) }
    requires state { IsHeld (program_of program.now) now.old }
    ensures { IsHeld (program_of program.now) now.new }
{
    let before = copied(alloc, now)?;
    let bits = (drawn >> 40) as u32;
    if step(alloc, program, now, bits % 2, bits / 2)? {
        met.count(true, is_move(program, &before, now));
    } else {
        met.count(false, same(&before, now));
        *now = start(alloc, program, bits, bits / 2)?;
    }
    met.see(now)
}

// Walks through any program by drawn picks.
fn walk(alloc: Global, program: &Program, steps: u32) -> Result<Met, OutOfMemory>
    requires { IsRead (program_of program.now) }
{
    let mut met = Met::new(alloc);
    let mut drawn: u64 = 1;
    let mut now = start(alloc, program, 0, 0)?;
    for _ in 0..steps {
        drawn = drawn
            .wrapping_mul(6364136223846793005)
            .wrapping_add(1442695040888963407);
        walk_on(alloc, program, &mut now, &mut met, drawn)?;
    }
    Ok(met)
}

#[test]
fn each_step_through_a_loop_is_a_move(rt: HostRuntime) -> Result<(), ReadFault> {
    let program = read(rt.alloc(), LOOPING)?;
    let met = walk(rt.alloc(), &program, 10_000)?;
    assert_eq!(rt; met.wrong, 0);
    assert_eq!(rt; u64::from(met.moves) + u64::from(met.ends), 10_000);
    assert!(rt; met.ends > 0 && met.moves > met.ends);
    Ok(())
}

fn point(line: u32, failed: bool) -> Point {
    Point { line, failed }
}

// Adds the points of a procedure: its body lines, and the failures of its asserts.
fn add_points(points: &mut Vec<Point>, owner: &Proc) -> Result<(), OutOfMemory> {
    for row in owner.body.as_slice() {
        let line = row.line;
        points.push(point(line, false))?;
        if let Statement::Assert(_) = &row.statement {
            points.push(point(line, true))?;
        }
    }
    Ok(())
}

// The points of a program, in order.
fn points_of(alloc: Global, program: &Program) -> Result<Vec<Point>, OutOfMemory> {
    let mut points = Vec::new(alloc);
    for owner in program.procs.as_slice() {
        add_points(&mut points, owner)?;
    }
    Ok(points)
}

// The points of the first list that the second does not have.
fn without(alloc: Global, points: &[Point], others: &[Point]) -> Result<Vec<Point>, OutOfMemory> {
    let mut left = Vec::new(alloc);
    for point in points {
        if !others.contains(point) {
            left.push(*point)?;
        }
    }
    Ok(left)
}

// The lock is held wherever it is given back, so that line 11 never fails. Line 24 stands behind a
// `return`. `busy` is what `request` returned, so that lines 32 and 33 are never met.
#[test]
fn each_step_of_the_lock_program_is_a_move(rt: HostRuntime) -> Result<(), ReadFault> {
    let alloc = rt.alloc();
    let program = read(alloc, LOCK)?;
    let met = walk(alloc, &program, 10_000)?;
    assert_eq!(rt; met.wrong, 0);
    assert_eq!(rt; u64::from(met.moves) + u64::from(met.ends), 10_000);
    let points = points_of(alloc, &program)?;
    let strange = without(alloc, met.points.as_slice(), points.as_slice())?;
    assert_eq!(rt; strange.len(), 0);
    let missed = without(alloc, points.as_slice(), met.points.as_slice())?;
    let wanted = [
        point(11, true),
        point(24, false),
        point(32, false),
        point(33, false),
    ];
    assert_eq!(rt; missed.as_slice(), wanted.as_slice());
    Ok(())
}
