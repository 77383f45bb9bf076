//! Runs scripts of calls and of whole lines, and compares their outputs with the expected ones.
//!
//! Standard input has the cases. The first lines of the file `stdin` describe their format. The
//! output has each case that differs, and after each section how many of its cases agree and
//! differ.
use lexopt_calls::run::run;
use std::alloc::{AllocError, Global};
use std::io;

// The outcome of a script: its output, and the message if it is refused.
#[derive(PartialEq, Drop)]
struct Outcome {
    written: Vec<u8>,
    refusal: String,
}

// A script, and its expected outcome.
#[derive(Drop)]
struct Case {
    script: String,
    wanted: Outcome,
}

// A section: its name, the last heading, and the counts of its cases so far.
#[derive(Drop)]
struct Section<'a> {
    name: &'a str,
    heading: &'a str,
    agree: u32,
    differ: u32,
}

impl Outcome {
    fn new(alloc: Global) -> Outcome {
        Outcome {
            written: Vec::new(alloc),
            refusal: String::new(alloc),
        }
    }

    // The outcome of a script.
    fn of(alloc: Global, script: &str) -> Result<Outcome, AllocError> {
        let mut outcome = Outcome::new(alloc);
        if let Err(error) = run(alloc, &mut script.as_bytes(), &mut outcome.written) {
            outcome.refusal = format!(in alloc; "{error}\n")?;
        }
        Ok(outcome)
    }

    fn print(&self, rt: &(impl Print + AllocGlobal)) -> io::Result<()> {
        let written = String::from_utf8_lossy(rt.alloc(), self.written.as_slice())?;
        print_lines(rt, "<", written.as_str())?;
        print_lines(rt, "!", self.refusal.as_str())
    }
}

impl Case {
    fn new(alloc: Global) -> Case {
        Case {
            script: String::new(alloc),
            wanted: Outcome::new(alloc),
        }
    }

    fn is_empty(&self) -> bool {
        self.script.is_empty() && self.wanted.written.is_empty() && self.wanted.refusal.is_empty()
    }

    // Adds a line, if it belongs to a case.
    fn add(&mut self, line: &str) -> Result<bool, AllocError> {
        let (mark, text) = parts(line);
        match mark {
            ">" => writeln!(self.script, "{text}")?,
            "<" => {
                self.wanted.written.extend_from_slice(text.as_bytes())?;
                self.wanted.written.push(b'\n')?;
            }
            "!" => writeln!(self.wanted.refusal, "{text}")?,
            _ => return Ok(false),
        }
        Ok(true)
    }

    // Prints the case, its heading, and the outcome that came.
    fn print(
        &self,
        rt: &(impl Print + AllocGlobal),
        heading: &str,
        outcome: &Outcome,
    ) -> io::Result<()> {
        print_lines(rt, "##", heading)?;
        print_lines(rt, ">", self.script.as_str())?;
        println!(rt; "wanted")?;
        self.wanted.print(rt)?;
        println!(rt; "came")?;
        outcome.print(rt)
    }
}

impl<'a> Section<'a> {
    fn new(name: &'a str) -> Section<'a> {
        Section {
            name,
            heading: "",
            agree: 0,
            differ: 0,
        }
    }

    // Runs a case, and prints it if it differs.
    fn replay(&mut self, rt: &(impl Print + AllocGlobal), case: &Case) -> io::Result<()> {
        if case.is_empty() {
            return Ok(());
        }
        let outcome = Outcome::of(rt.alloc(), case.script.as_str())?;
        if outcome == case.wanted {
            self.agree = self.agree.saturating_add(1);
            Ok(())
        } else {
            self.differ = self.differ.saturating_add(1);
            case.print(rt, self.heading, &outcome)
        }
    }

    // Reads the line with this number, which belongs to no case.
    fn read(&mut self, rt: &impl Print, number: u32, line: &'a str) -> io::Result<()> {
        let (mark, text) = parts(line);
        match mark {
            "#" => {
                self.print(rt)?;
                *self = Section::new(text);
            }
            "##" => self.heading = text,
            "//" => {}
            _ if line.is_empty() => {}
            _ => println!(rt; "line {number} has no mark: {line}")?,
        }
        Ok(())
    }

    // Prints the counts, if there is a case.
    fn print(&self, rt: &impl Print) -> io::Result<()> {
        let Section {
            name,
            agree,
            differ,
            ..
        } = self;
        if *agree == 0 && *differ == 0 {
            return Ok(());
        }
        println!(rt; "{name}: {agree} agree, {differ} differ")
    }
}

// The mark of a line, and its text. After the mark is nothing, or a space and the text.
fn parts(line: &str) -> (&str, &str) {
    line.split_once(' ').unwrap_or((line, ""))
}

fn print_lines(rt: &impl Print, mark: &str, text: &str) -> io::Result<()> {
    for line in text.lines() {
        println!(rt; "{mark} {line}")?;
    }
    Ok(())
}

// Runs the cases of this input, and prints the counts.
fn replay(rt: &(impl Print + AllocGlobal), input: &str) -> io::Result<()> {
    let mut section = Section::new("Cases in no section");
    let mut case = Case::new(rt.alloc());
    let mut number = 0u32;
    for line in input.lines() {
        number = number.saturating_add(1);
        if !case.add(line)? {
            // Any other line ends the case.
            section.replay(rt, &case)?;
            case = Case::new(rt.alloc());
            section.read(rt, number, line)?;
        }
    }
    section.replay(rt, &case)?;
    section.print(rt)
}

/// Runs the cases of standard input, and prints the counts.
pub fn print(rt: &(impl Input + Print + AllocGlobal)) -> io::Result<()> {
    replay(rt, io::read_to_string(rt.alloc(), rt.reader())?.as_str())
}
