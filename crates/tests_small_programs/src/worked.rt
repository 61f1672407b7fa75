//! The walk through a program whose points are known.

use crate::reading::read;
use crate::walk::walk_through;
use boolean_programs::Point;
use wpds_port::ReadFault;

// `first` returns its parameter or not at all, so that `OUT` fails. Line 15 stands behind a `return`.
const WORKED: &str = "bool 1
global g h
proc main()
  local x
  assume !g & !x
  x := 1
  g := call first(x)
  OUT: assert !g
  h := 0
end
proc first(p) returns 1
  local q
  if q
    return p
    q := 0
  else
    L: goto L
  end
end
query fails OUT
";

fn point(line: u32, failed: bool) -> Point {
    Point { line, failed }
}

#[test]
fn the_points_of_a_program_are_met(rt: HostRuntime) -> Result<(), ReadFault> {
    let program = read(rt.alloc(), WORKED.as_bytes())?;
    let walk = walk_through(rt.alloc(), &program)?;
    assert!(rt; walk.is_whole());
    assert_eq!(rt; walk.len(), 24);
    for line in [5, 6, 7, 8, 13, 14, 17] {
        assert!(rt; walk.reaches(point(line, false)), "at {line}");
    }
    for line in [9, 10, 15, 16, 18, 19] {
        assert!(rt; !walk.reaches(point(line, false)), "at {line}");
    }
    assert!(rt; walk.reaches(point(8, true)));
    Ok(())
}
