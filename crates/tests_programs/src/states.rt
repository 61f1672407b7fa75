//! States that are made and compared.

use boolean_meaning::{Frame, FrameList, State};
use boolean_programs::Point;
use std::alloc::Global;
use wpds_base::OutOfMemory;

/// A frame with these bits of its names.
pub(crate) fn frame(line: u32, failed: bool, locals: u32) -> Frame {
    Frame {
        point: Point { line, failed },
        locals,
    }
}

/// A state of these frames, the top first.
pub(crate) fn state(alloc: Global, globals: u32, frames: &[Frame]) -> Result<State, OutOfMemory> {
    Ok(State {
        globals,
        frames: FrameList::from_vec(Vec::from_slice(alloc, frames)?),
    })
}

// The frames of a state.
fn frames_of(alloc: Global, state: &State) -> Result<Vec<Frame>, OutOfMemory> {
    let mut frames = Vec::new(alloc);
    for place in 0..state.frames.len() {
        if let Some(frame) = state.frames.get(place) {
            frames.push(frame)?;
        }
    }
    Ok(frames)
}

/// The same state once more.
pub(crate) fn copied(alloc: Global, state: &State) -> Result<State, OutOfMemory> {
    Ok(State {
        globals: state.globals,
        frames: FrameList::from_vec(frames_of(alloc, state)?),
    })
}

/// The state with other bits of the globals and of the top frame's names, and another line on top.
pub(crate) fn changed(
    alloc: Global,
    state: &State,
    globals: u32,
    locals: u32,
    line: u32,
) -> Result<State, OutOfMemory> {
    let mut frames = frames_of(alloc, state)?;
    if let Some(top) = frames.first_mut() {
        top.point.line ^= line;
        top.locals ^= locals;
    }
    Ok(State {
        globals: state.globals ^ globals,
        frames: FrameList::from_vec(frames),
    })
}

/// Whether two states are the same.
pub(crate) fn same(a: &State, b: &State) -> bool {
    if a.globals != b.globals || a.frames.len() != b.frames.len() {
        return false;
    }
    for place in 0..a.frames.len() {
        if a.frames.get(place) != b.frames.get(place) {
            return false;
        }
    }
    true
}
