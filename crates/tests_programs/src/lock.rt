//! The program of a driver that takes one lock and gives it back.

use crate::reading::read;
use wpds_port::ReadFault;

/// Its text.
pub(crate) const LOCK: &[u8] = b"bool 1
# a driver that takes one lock and gives it back
global locked busy

proc acquire()
  A1: assert !locked
  locked := 1
end

proc release()
  R1: assert locked
  locked := 0
end

proc request() returns 1
  local ok
  ok := *
  if ok
    busy := 1
  else
    busy := 0
  end
  return ok
end

proc work(hard)
  local more
  more := hard
  while more
    more := call request()
    if busy & !more
      BAD: skip
    end
  end
end

proc main()
  local got again
  locked, busy := 0, 0
  again := 1
  while again
    call acquire()
    got := call request()
    if got
      call release()
      call work(1)
      call acquire()
    end
    if *
      call release()
      again := *
    else
      skip
    end
  end
  LAST: skip
end

query fails A1
query fails R1
query reach BAD
query reach LAST
";

#[test]
fn the_lock_program_is_read(rt: HostRuntime) -> Result<(), ReadFault> {
    let program = read(rt.alloc(), LOCK)?;
    assert_eq!(rt; program.globals.len(), 2);
    let mut sizes = Vec::new(rt.alloc());
    for proc in program.procs.as_slice() {
        sizes.push((
            proc.params.len(),
            proc.locals.len(),
            proc.returns,
            proc.body.len(),
        ))?;
    }
    let bodies = [
        (0, 0, 0u32, 3),
        (0, 0, 0, 3),
        (0, 1, 1, 8),
        (1, 1, 0, 8),
        (0, 2, 0, 19),
    ];
    assert_eq!(rt; sizes.as_slice(), bodies.as_slice());
    let mut asked = Vec::new(rt.alloc());
    for point in program.queries.as_slice() {
        asked.push((point.line, point.failed))?;
    }
    let wanted = [(6u32, true), (11, true), (32, false), (56, false)];
    assert_eq!(rt; asked.as_slice(), wanted.as_slice());
    Ok(())
}
