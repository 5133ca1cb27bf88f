// How many were tried, and how many of them are right.

// The number of standard output.
const STDOUT: i32 = 1;

#[derive(Clone, Copy, Default)]
pub struct Counts {
    pub right: u64,
    pub all: u64,
}

impl Counts {
    // `33 of 33 traps`.
    pub fn print(self, name: &[u8]) {
        print_number(b"", self.right);
        print_number(b" of ", self.all);
        print_text(b" ");
        print_text(name);
        print_text(b"\n");
    }

    // One more; if it is not right, its line is printed.
    pub fn after(self, right: bool, line: &[u8]) -> Counts {
        if !right {
            print_text(line);
        }
        Counts {
            right: self.right.saturating_add(u64::from(right)),
            all: self.all.saturating_add(1),
        }
    }
}

// A text.
pub fn print_text(text: &[u8]) {
    io::write_all(STDOUT, text);
}

// A text, and a number behind it.
pub fn print_number(text: &[u8], n: u64) {
    print_text(text);
    io::print_decimal(STDOUT, n);
}
