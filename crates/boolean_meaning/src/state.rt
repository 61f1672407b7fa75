ghost use Rattle.std.specs.Prelude.{◌≡◌, ◌<◌, ◌++◌, ◌∷◌, length, drop, slice_get, OnOk, OnErr};

use boolean_programs::Point;
use std::alloc::Global;
use std::collections::VecDeque;
use std::marker::Model;
use wpds_base::OutOfMemory;

/// A procedure at work: where it stands, and the bits of its names.
#[derive(Clone, Copy, Debug, PartialEq, Eq)]
pub struct Frame {
    pub point: Point,
    /// Bit `i` is the `i`-th parameter or other local, in order of declaration.
    pub locals: u32,
}

/// Frames, the top first, which contracts see as a list.
#[derive(Debug, Drop)]
pub struct FrameList {
    frames: VecDeque<Frame>,
}

impl Model for FrameList {
    ghost use Rattle.std.specs.Prelude.{List};
    ghost use Rattle.boolean_meaning.specs.declared.state.Frame.{Frame};

    ghost Value = { List Frame };

    ghost view = { λ l. l.frames.items };
}

/// A state of a program's machine.
#[derive(Debug, Drop)]
pub struct State {
    /// Bit `i` is the `i`-th global, in order of declaration.
    pub globals: u32,
    pub frames: FrameList,
}

impl FrameList {
    /// These frames, the top first. It takes no memory.
    pub fn from_vec(frames: Vec<Frame>) -> FrameList
        ensures { result ≡ frames.items }
    {
        FrameList {
            frames: VecDeque::from_vec(frames),
        }
    }

    /// The frames, given back without memory.
    pub fn into_vec(self) -> Vec<Frame>
        ensures { result.items ≡ self }
    {
        self.frames.into()
    }

    /// How many frames there are.
    pub fn len(&self) -> usize
        ensures { result ≡ length self.now }
    {
        self.frames.len()
    }

    /// The frame at this place from the top.
    pub fn get(&self, place: usize) -> Option<Frame>
        ensures { result ≡ slice_get self.now place }
    {
        self.frames.get(place).copied()
    }

    /// Puts a frame on top.
    pub fn push(&mut self, frame: Frame) -> Result<(), OutOfMemory>
        ensures ok { OnOk result (self.new ≡ frame ∷ self.old) }
        ensures err { OnErr result (self.new ≡ self.old) }
    {
        self.frames.push_front(frame)?;
        Ok(())
    }

    /// Takes the top frame away, if there is one.
    pub fn pop(&mut self)
        ensures { self.new ≡ drop 1 self.old }
    {
        self.frames.pop_front();
    }

    /// Puts a frame in place of the top one.
    pub fn set_top(&mut self, frame: Frame)
        requires { 0 < length self.old }
        ensures { self.new ≡ frame ∷ drop 1 self.old }
    {
        self.frames[0] = frame;
    }
}
