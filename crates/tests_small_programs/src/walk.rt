//! All states that a program comes to, by each of its moves.

ghost use Rattle.boolean_programs.specs.Programs.{program_of};
ghost use Rattle.boolean_programs.specs.Structure.{IsRead};

use boolean_meaning::{Frame, FrameList, State, is_state, start, step};
use boolean_programs::{Point, Program};
use std::alloc::Global;
use std::collections::BTreeSet;
use wpds_base::OutOfMemory;

// So many states are looked at.
const MOST_STATES: usize = 20_000;

// States with more frames are left out.
const MOST_FRAMES: usize = 4;

// The values of all globals and of all of main's locals that a program here has.
const BEGINNINGS: [(u32, u32); 8] = [
    (0, 0),
    (1, 0),
    (2, 0),
    (3, 0),
    (0, 1),
    (1, 1),
    (2, 1),
    (3, 1),
];

// The picks of moves: a target of three, and two bits.
const PICKS: [(u32, u32); 12] = [
    (0, 0),
    (0, 1),
    (0, 2),
    (0, 3),
    (1, 0),
    (1, 1),
    (1, 2),
    (1, 3),
    (2, 0),
    (2, 1),
    (2, 2),
    (2, 3),
];

// A frame, as it is looked up.
#[derive(PartialEq, Eq, PartialOrd, Ord, Clone, Copy)]
struct Spot {
    line: u32,
    failed: bool,
    locals: u32,
}

// A state, as it is looked up.
#[derive(PartialEq, Eq, PartialOrd, Ord, Drop)]
struct Met {
    globals: u32,
    frames: Vec<Spot>,
}

fn spot_of(frame: Frame) -> Spot {
    Spot {
        line: frame.point.line,
        failed: frame.point.failed,
        locals: frame.locals,
    }
}

fn looked_up(alloc: Global, state: &State) -> Result<Met, OutOfMemory> {
    let mut frames = Vec::new(alloc);
    for place in 0..state.frames.len() {
        if let Some(frame) = state.frames.get(place) {
            frames.push(spot_of(frame))?;
        }
    }
    Ok(Met {
        globals: state.globals,
        frames,
    })
}

// The same state once more.
fn copied(alloc: Global, state: &State) -> Result<State, OutOfMemory> {
    let mut frames = Vec::new(alloc);
    for place in 0..state.frames.len() {
        if let Some(frame) = state.frames.get(place) {
            frames.push(frame)?;
        }
    }
    Ok(State {
        globals: state.globals,
        frames: FrameList::from_vec(frames),
    })
}

/// The states that were met, and the points that stood on top.
#[derive(Drop)]
pub(crate) struct Walk {
    met: BTreeSet<Met>,
    waiting: Vec<State>,
    points: Vec<Point>,
}

impl Walk {
    fn new(alloc: Global) -> Walk {
        Walk {
            met: BTreeSet::new(alloc),
            waiting: Vec::new(alloc),
            points: Vec::new(alloc),
        }
    }

    /// Whether all states were looked at.
    pub(crate) fn is_whole(&self) -> bool {
        self.waiting.is_empty()
    }

    /// How many states were met.
    pub(crate) fn len(&self) -> usize {
        self.met.len()
    }

    /// Whether a point stood on top.
    pub(crate) fn reaches(&self, point: Point) -> bool {
        self.points.contains(&point)
    }

    fn note(&mut self, state: &State) -> Result<(), OutOfMemory> {
        if let Some(top) = state.frames.get(0) {
            if !self.points.contains(&top.point) {
                self.points.push(top.point)?;
            }
        }
        Ok(())
    }

    // Meets a state, which waits if it is new.
    fn meet(&mut self, alloc: Global, state: State) -> Result<(), OutOfMemory> {
        if state.frames.len() > MOST_FRAMES {
            return Ok(());
        }
        if self.met.insert(looked_up(alloc, &state)?)? {
            self.note(&state)?;
            self.waiting.push(state)?;
        }
        Ok(())
    }

    // Meets the states with which a program begins.
    fn begin(&mut self, alloc: Global, program: &Program) -> Result<(), OutOfMemory>
        requires { IsRead (program_of program.now) }
    {
        for (globals, locals) in BEGINNINGS {
            self.meet(alloc, start(alloc, program, globals, locals)?)?;
        }
        Ok(())
    }

    // Meets the states to which a state moves.
    fn move_on(&mut self, alloc: Global, program: &Program, from: &State) -> Result<(), OutOfMemory>
        requires { IsRead (program_of program.now) }
    {
        for (target, bits) in PICKS {
            let mut state = copied(alloc, from)?;
            if is_state(program, &state) && step(alloc, program, &mut state, target, bits)? {
                self.meet(alloc, state)?;
            }
        }
        Ok(())
    }
}

/// Walks through a program of two globals whose main has one local, of which no line has more than two free values or
/// three targets.
pub(crate) fn walk_through(alloc: Global, program: &Program) -> Result<Walk, OutOfMemory>
    requires { IsRead (program_of program.now) }
{
    let mut walk = Walk::new(alloc);
    walk.begin(alloc, program)?;
    for _ in 0..MOST_STATES {
        let Some(state) = walk.waiting.pop() else {
            return Ok(walk);
        };
        walk.move_on(alloc, program, &state)?;
    }
    Ok(walk)
}
