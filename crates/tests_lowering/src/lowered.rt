use boolean_lowering::{Lowering, lower};
use boolean_programs::Point;
use boolean_syntax::read_program;
use program_laws::read_programs_are_lawful;
use std::alloc::Global;
use wpds_base::OutOfMemory;

const LOOP: &[u8] = b"bool 1
proc main()
  call loop()
  L: skip
end
proc loop()
  call loop()
end
query reach L
";

const LOCK: &[u8] = b"bool 1
# a driver that takes one lock and gives it back
global locked busy

proc acquire()
  A1: assert !locked
  locked := 1
end

proc release()
  R1: assert locked
  locked := 0
end

proc request() returns 1
  local ok
  ok := *
  if ok
    busy := 1
  else
    busy := 0
  end
  return ok
end

proc work(hard)
  local more
  more := hard
  while more
    more := call request()
    if busy & !more
      BAD: skip
    end
  end
end

proc main()
  local got again
  locked, busy := 0, 0
  again := 1
  while again
    call acquire()
    got := call request()
    if got
      call release()
      call work(1)
      call acquire()
    end
    if *
      call release()
      again := *
    else
      skip
    end
  end
  LAST: skip
end

query fails A1
query fails R1
query reach BAD
query reach LAST
";

// The lowering of the program of a text.
fn lowered(alloc: Global, text: &[u8]) -> Result<Lowering, OutOfMemory> {
    read_programs_are_lawful();
    let Ok(program) = read_program(alloc, text) else {
        return Err(OutOfMemory);
    };
    lower(alloc, &program)
}

fn point(line: u32, failed: bool) -> Point {
    Point { line, failed }
}

// Whether each symbol is that of its point, and each line below 70 with another answer has none.
fn points_agree(lowering: &Lowering) -> bool {
    let points = &lowering.points;
    let symbols = lowering.system.symbols();
    if points.len() != symbols as usize {
        return false;
    }
    let mut found: u32 = 0;
    for line in 0..70 {
        for failed in [false, true] {
            if let Some(symbol) = points.symbol(point(line, failed)) {
                if symbol >= symbols || points.point(symbol) != point(line, failed) {
                    return false;
                }
                found = found.saturating_add(1);
            }
        }
    }
    found == symbols
}

#[test]
fn a_program_that_never_returns_is_lowered(rt: HostRuntime) -> Result<(), OutOfMemory> {
    let lowering = lowered(rt.alloc(), LOOP)?;
    assert_eq!(rt; lowering.system.controls(), 1);
    assert_eq!(rt; lowering.system.symbols(), 5);
    assert_eq!(rt; lowering.system.rules(), 5);
    assert!(rt; points_agree(&lowering));
    assert!(rt; lowering.points.symbol(point(4, false)) == Some(1));
    assert!(rt; lowering.points.symbol(point(4, true)).is_none());
    assert!(rt; lowering.points.symbol(point(6, false)).is_none());
    Ok(())
}

// The heads and the right sides of rules.
fn shape(alloc: Global, lowering: &Lowering) -> Result<Vec<(u32, u32, u32)>, OutOfMemory> {
    let mut shape = Vec::new(alloc);
    for k in 0..lowering.system.rules() {
        let rule = lowering.system.rule(k);
        let row = match rule.right.as_slice() {
            [] => (rule.symbol, 100, 100),
            [top] => (rule.symbol, *top, 100),
            [top, below, ..] => (rule.symbol, *top, *below),
        };
        shape.push(row)?;
    }
    Ok(shape)
}

#[test]
fn rules_stand_by_lines(rt: HostRuntime) -> Result<(), OutOfMemory> {
    let lowering = lowered(rt.alloc(), LOOP)?;
    let rows = shape(rt.alloc(), &lowering)?;
    let wanted = [
        (0u32, 3u32, 1u32),
        (1, 2, 100),
        (2, 100, 100),
        (3, 3, 4),
        (4, 100, 100),
    ];
    assert_eq!(rt; rows.as_slice(), wanted.as_slice());
    Ok(())
}

#[test]
fn the_lock_program_is_lowered(rt: HostRuntime) -> Result<(), OutOfMemory> {
    let lowering = lowered(rt.alloc(), LOCK)?;
    assert_eq!(rt; lowering.system.symbols(), 43);
    assert_eq!(rt; lowering.system.rules(), 49);
    assert!(rt; points_agree(&lowering));
    assert!(rt; lowering.points.symbol(point(6, false)) == Some(0));
    assert!(rt; lowering.points.symbol(point(6, true)) == Some(41));
    assert!(rt; lowering.points.symbol(point(11, true)) == Some(42));
    assert!(rt; lowering.points.symbol(point(32, false)) == Some(18));
    assert!(rt; lowering.points.symbol(point(56, false)) == Some(39));
    Ok(())
}
