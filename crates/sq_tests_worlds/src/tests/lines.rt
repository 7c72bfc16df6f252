//! Lines that are read where a call of the reader fails.
use sq_lines::counted::Counted;
use sq_lines::lines::{LineFault, Lines};
use sq_tests_kit::streams::Piecewise;

#[test]
fn keeps_what_was_read_before_a_fault(rt: HostRuntime) {
    let mut reader = Counted::new(Piecewise::new(b"a line of ten words\nmore", 4, 3));
    let mut lines = Lines::new(rt.alloc()).expect(&rt, "memory");
    let first = lines.next_line(rt.alloc(), &mut reader);
    assert!(rt; matches!(&first, Err(LineFault::Read)));
    let second = lines.next_line(rt.alloc(), &mut reader);
    assert!(rt;
        matches!(&second, Ok(Some(line)) if line.as_slice() == b"a line of ten words".as_slice())
    );
}
