//! Counts of comparisons that agreed and that differed.
use std::io;

/// How many comparisons agreed and differed, and the first that differed.
#[derive(Drop)]
pub struct Tally {
    agreed: u64,
    differed: u64,
    first: Option<String>,
}

impl Tally {
    pub fn new() -> Tally {
        Tally {
            agreed: 0,
            differed: 0,
            first: None,
        }
    }

    /// Counts a comparison that agreed.
    pub fn agree(&mut self) {
        self.agreed = self.agreed.saturating_add(1);
    }

    /// Counts a comparison that differed, and keeps its text if it is the first.
    pub fn differ(&mut self, shown: String) {
        self.differed = self.differed.saturating_add(1);
        if self.first.is_none() {
            self.first = Some(shown);
        }
    }

    /// Adds the counts of another tally.
    pub fn add(&mut self, other: &Tally) {
        self.agreed = self.agreed.saturating_add(other.agreed);
        self.differed = self.differed.saturating_add(other.differed);
    }

    /// Prints the counts after a name.
    pub fn print(&self, rt: &impl Print, name: &str) -> io::Result<()> {
        let agreed = self.agreed;
        let differed = self.differed;
        let (mark, first) = match &self.first {
            None => ("", ""),
            Some(first) => (", first ", first.as_str()),
        };
        println!(rt; "{name}: {agreed} agreed, {differed} differed{mark}{first}")
    }
}
