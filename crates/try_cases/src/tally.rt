// What a replay has seen of a question.

// How many cases there were, how many of them agree, and the place of the first that does not.
#[derive(Clone, Copy)]
pub struct Tally {
    cases: u64,
    agree: u64,
    first: Option<u64>,
}

impl Tally {
    pub fn new() -> Self {
        Tally {
            cases: 0,
            agree: 0,
            first: None,
        }
    }

    // One case more.
    pub fn add(&mut self, agrees: bool) {
        if agrees {
            self.agree = self.agree.saturating_add(1);
        } else {
            self.first = self.first.or(Some(self.cases));
        }
        self.cases = self.cases.saturating_add(1);
    }

    // One line: the question, how many of its cases agree, and the first that does not.
    pub fn print(self, name: &[u8]) {
        io::write_all(1, name);
        io::write_all(1, b" ");
        io::print_decimal(1, self.agree);
        io::write_all(1, b" of ");
        io::print_decimal(1, self.cases);
        if let Some(first) = self.first {
            io::write_all(1, b", not case ");
            io::print_decimal(1, first);
        }
        io::write_all(1, b"\n");
    }
}
