//! How a program ends: its status, and what it prints to standard error.
use lexopt_base::{BROKEN_PIPE, finish};
use std::alloc::Global;
use std::cell::RefCell;
use std::fmt::Display;
use std::io;
use std::io::{Error, ErrorKind};
use std::process::ExitCode;

// Standard error, which keeps the last line that is printed to it.
#[derive(Drop)]
struct Printed {
    alloc: Global,
    line: RefCell<String>,
}

impl Eprint for Printed {
    fn eprint<D: Display + Drop>(&self, _value: D) -> io::Result<()> {
        Err(Error::from(ErrorKind::Unsupported))
    }

    fn eprintln<D: Display + Drop>(&self, value: D) -> io::Result<()> {
        *self.line.try_borrow_mut()? = format!(in self.alloc; "{value}")?;
        Ok(())
    }
}

// Whether a program that returns this ends with this status, and prints this line.
fn ends_so(alloc: Global, outcome: io::Result<ExitCode>, status: u8, line: &str) -> bool {
    let printed = Printed {
        alloc,
        line: RefCell::new(String::new(alloc)),
    };
    finish(&printed, "hello", outcome) == ExitCode::from(status)
        && printed.line.into_inner().as_str() == line
}

#[test]
fn ends(rt: HostRuntime) {
    let alloc = rt.alloc();
    assert!(rt; ends_so(alloc, Ok(ExitCode::SUCCESS), 0, ""));
    assert!(rt; ends_so(alloc, Ok(ExitCode::from(7)), 7, ""));
    let closed = Error::from(ErrorKind::BrokenPipe);
    assert!(rt; ends_so(alloc, Err(closed), BROKEN_PIPE, ""));
    let full = Error::from_raw_os_error(28);
    assert!(rt;
        ends_so(
            alloc,
            Err(full),
            1,
            "hello: No space left on device (os error 28)"
        )
    );
    let no_memory = Error::from(ErrorKind::OutOfMemory);
    assert!(rt; ends_so(alloc, Err(no_memory), 1, "hello: out of memory"));
}
