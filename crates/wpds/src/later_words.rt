//! The words after the program's name.

use std::alloc::Global;
use std::env::{Env, FillError};
use std::{env, io};
use wpds_base::OutOfMemory;

/// The arguments but the first, which is the program's own name and may be no UTF-8 text.
#[derive(Drop)]
struct LaterWords<'r, R> {
    all: &'r R,
}

impl<R: Env> Env for LaterWords<'_, R> {
    fn arg(&self, i: usize, buf: &mut [u8]) -> Result<usize, FillError> {
        self.all.arg(i.saturating_add(1), buf)
    }

    fn var(&self, name: &str, buf: &mut [u8]) -> Result<usize, FillError> {
        self.all.var(name, buf)
    }

    fn var_at(&self, i: usize, buf: &mut [u8]) -> Result<usize, FillError> {
        self.all.var_at(i, buf)
    }
}

/// The words after the program's name. If one of them is not UTF-8, there are none, which is no command either.
pub(crate) fn words(rt: &HostRuntime) -> Result<Vec<String>, OutOfMemory> {
    let later = (LaterWords { all: rt }, rt.alloc());
    match env::args(&later) {
        Ok(args) => Ok(args.collect(rt.alloc())?),
        Err(error) if error.kind() == io::ErrorKind::OutOfMemory => Err(OutOfMemory),
        Err(_) => Ok(Vec::new(rt.alloc())),
    }
}
