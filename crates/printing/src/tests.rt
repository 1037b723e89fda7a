// The text of each form, and what becomes of a print that fails.
use super::{
    Listed, book, book_best_effort, finger, finger_best_effort, list, samples, samples_best_effort,
};
use model::{Book, Finger, Wide};
use std::cell::Cell;
use std::fmt::{Display, Write};
use std::{fmt, io};

// A text that is expected, as far as it is still to come.
#[derive(Drop)]
struct Rest<'a>(&'a [u8]);

impl Rest<'_> {
    fn go_on(&mut self, text: &[u8]) -> Option<()> {
        self.0 = self.0.strip_prefix(text)?;
        Some(())
    }
}

impl fmt::Write for Rest<'_> {
    fn write_str(&mut self, text: &str) -> fmt::Result {
        self.go_on(text.as_bytes()).ok_or(fmt::Error)
    }
}

// Takes each print that goes on with the text that is expected, and refuses any other.
#[derive(Drop)]
struct Expected<'a>(Cell<&'a [u8]>);

impl Print for Expected<'_> {
    fn print<D: Display + Drop>(&self, value: D) -> io::Result<()> {
        let mut rest = Rest(self.0.get());
        write!(rest, "{value}")?;
        self.0.set(rest.0);
        Ok(())
    }

    fn println<D: Display + Drop>(&self, value: D) -> io::Result<()> {
        self.print(value)?;
        self.write_all(b"\n")
    }

    fn write_all(&self, bytes: &[u8]) -> io::Result<()> {
        let mut rest = Rest(self.0.get());
        rest.go_on(bytes).ok_or(io::ErrorKind::StorageFull)?;
        self.0.set(rest.0);
        Ok(())
    }
}

// What is printed on a page that expects this text: whether it was Ok, and how many bytes are still to come.
fn outcome<F: FnOnce(&Expected) -> io::Result<()>>(text: &[u8], print: F) -> (bool, usize)
    requires { F.IsAlwaysCallable print }
{
    let page = Expected(Cell::new(text));
    let ok = print(&page).is_ok();
    (ok, page.0.get().len())
}

// What is printed on such a page without a result: how many bytes are still to come.
fn left<F: FnOnce(&Expected)>(text: &[u8], print: F) -> usize
    requires { F.IsAlwaysCallable print }
{
    let page = Expected(Cell::new(text));
    print(&page);
    page.0.get().len()
}

const FINGER: Finger = Finger {
    newer: -5,
    older: 6,
    contact: -2147483648,
};

const BOOK: Book = Book {
    stored: Wide { high: 0, low: 16 },
    work: Wide { high: -1, low: 255 },
    loss: Wide { high: 1, low: 0 },
    rounding: Wide { high: -2, low: 10 },
    count: 4294967295,
};

const SAMPLES: [f32; 3] = [1.0, -0.0, f32::NAN];

// The whole text of these, with no print that fails.
const SAMPLES_TEXT: &[u8] = b" 3f800000 80000000 ffffffff";

const FINGER_TEXT: &[u8] = b" finger -5 6 -2147483648";

const BOOK_TEXT: &[u8] =
    b" book 0000000000000000 0000000000000010 ffffffffffffffff 00000000000000ff 0000000000000001 0000000000000000 fffffffffffffffe 000000000000000a 4294967295";

#[test]
fn each_form_has_its_text(rt: HostRuntime) {
    let got = outcome(SAMPLES_TEXT, |page| samples(page, &SAMPLES));
    assert_eq!(rt; got, (true, 0), "samples");
    let got = outcome(FINGER_TEXT, |page| finger(page, FINGER));
    assert_eq!(rt; got, (true, 0), "finger");
    let got = outcome(BOOK_TEXT, |page| book(page, BOOK));
    assert_eq!(rt; got, (true, 0), "book");
    let got = outcome(b" 1 -2 3", |page| print!(page; "{}", Listed(&[1, -2, 3])));
    assert_eq!(rt; got, (true, 0), "list");
}

#[test]
fn best_effort_has_the_same_text(rt: HostRuntime) {
    let rest = left(SAMPLES_TEXT, |page| samples_best_effort(page, &SAMPLES));
    assert_eq!(rt; rest, 0, "samples");
    let rest = left(FINGER_TEXT, |page| finger_best_effort(page, FINGER));
    assert_eq!(rt; rest, 0, "finger");
    let rest = left(BOOK_TEXT, |page| book_best_effort(page, BOOK));
    assert_eq!(rt; rest, 0, "book");
}

#[test]
fn a_print_that_fails_ends_there(rt: HostRuntime) {
    let got = outcome(b" 3f800000 40400000", |page| {
        samples(page, &[1.0, 2.0, 3.0])
    });
    assert_eq!(rt; got, (false, 9), "samples");
    let got = outcome(b" finger -5 -2147483648", |page| finger(page, FINGER));
    assert_eq!(rt; got, (false, 22), "finger");
    let got = outcome(b" book 4294967295", |page| book(page, BOOK));
    assert_eq!(rt; got, (false, 16), "book");
    let got = outcome(b" 1 3", |page| print!(page; "{}", Listed(&[1, -2, 3])));
    assert_eq!(rt; got, (false, 4), "list");
}

#[test]
fn best_effort_goes_on(rt: HostRuntime) {
    let rest = left(
        b" 3f800000 40400000",
        |page| samples_best_effort(page, &[1.0, 2.0, 3.0]),
    );
    assert_eq!(rt; rest, 0, "samples");
    let rest = left(
        b" finger -5 -2147483648",
        |page| finger_best_effort(page, FINGER),
    );
    assert_eq!(rt; rest, 0, "finger");
    let rest = left(
        b" book 0000000000000010 4294967295",
        |page| book_best_effort(page, BOOK),
    );
    assert_eq!(rt; rest, 0, "book");
    let rest = left(b" 1 3", |page| list(page, &[1, -2, 3]));
    assert_eq!(rt; rest, 0, "list");
}
