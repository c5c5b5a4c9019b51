//! Small certificates: one that is fed byte by byte, of which no front is enough; and one of two pieces, in libraries that fail at one call. What
//! else is said of texts, `tests/certificates.py` asks the program.

use std::alloc::Global;
use ygg_base::{Files, Held, Library, Numbers, Opened, Shelf, Text};
use ygg_cert::{CertEnd, CertReader, Fed, Goal, Wanted, check_cert, check_open};
use ygg_cnf::{Clause, Clauses, Lit};
use ygg_list::NoMemory;

const FULL: &[u8] = b"ygg-cert 1\no a.init 4\nc 2 0 1 2 0\nc -2 0 3 4 0\nc 0 5 6 0\ne\nend\n";

/// Whether each of the two variables is negated in a clause.
const CLAUSES: [(bool, bool); 4] = [(false, false), (true, false), (false, true), (true, true)];

/// The literals of the variables 1 and 2 that are negated so.
fn pair(one: bool, two: bool) -> [Lit; 2] {
    [
        Lit {
            var: 1,
            negated: one,
        },
        Lit {
            var: 2,
            negated: two,
        },
    ]
}

/// Adds a clause of these literals, and says whether that was done.
fn add(alloc: Global, clauses: &mut Clauses, lits: &[Lit]) -> bool {
    match Clause::from_slice(alloc, lits) {
        Ok(clause) => clauses.push(clause).is_ok(),
        Err(_) => false,
    }
}

/// Adds the clauses that say all of two variables.
fn add_clauses(alloc: Global, clauses: &mut Clauses) -> bool {
    let mut added = true;
    for (one, two) in &CLAUSES {
        added &= add(alloc, clauses, &pair(*one, *two));
    }
    added
}

/// Adds the goal of this name, which has these clauses.
fn add_goal(alloc: Global, goals: &mut Wanted, name: Text) -> bool {
    let mut clauses = Clauses::new(alloc);
    let added = add_clauses(alloc, &mut clauses);
    added & goals.push(Goal { name, clauses }).is_ok()
}

/// Adds the goal `a.init`.
fn want(alloc: Global, goals: &mut Wanted) -> bool {
    match Text::from_slice(alloc, b"a.init") {
        Ok(name) => add_goal(alloc, goals, name),
        Err(_) => false,
    }
}

/// What is said, in short: how many goals were checked; the number of a clause at fault, after 1000; or the number of a refusal.
fn said(end: CertEnd) -> u64 {
    match end {
        CertEnd::Checked(count) => u64::from(count),
        CertEnd::Bad { name: _, id } => id.saturating_add(1000),
        CertEnd::Refused(refusal) => u64::from(refusal.number),
        CertEnd::Memory => 0,
    }
}

/// Whether each front of the certificate ends too early, and all of it is checked.
fn is_whole(alloc: Global, goals: &Wanted) -> bool {
    for place in 0..FULL.len() {
        if said(check_cert(alloc, &FULL[..place], goals)) != 24 {
            return false;
        }
    }
    said(check_cert(alloc, FULL, goals)) == 1
}

/// Whether a reader takes the certificate byte by byte, with no byte at fault.
fn is_taken(reader: CertReader) -> bool {
    let mut reader = reader;
    let mut takes = true;
    for byte in FULL {
        takes &= reader.feed(&[*byte]) == Fed::More;
    }
    said(reader.finish()) == 1 && takes
}

/// Makes a text a certificate that is read in two pieces: the first clause is derived again and again.
fn fill(text: &mut Text) -> bool {
    let mut filled = text.extend_from_slice(b"ygg-cert 1\no a.init 4\n").is_ok();
    for _ in 0..6_000 {
        filled &= text.extend_from_slice(b"c 2 0 1 2 0\n").is_ok();
    }
    filled
        & text
            .extend_from_slice(b"c -2 0 3 4 0\nc 0 5 6005 0\ne\nend\n")
            .is_ok()
}

/// The name of the certificate.
fn name_of(alloc: Global) -> Result<Text, NoMemory> {
    Text::from_slice(alloc, b"certificate")
}

/// Adds the certificate.
fn add_file(alloc: Global, files: &mut Files) -> bool {
    let mut bytes = Text::new(alloc);
    let filled = fill(&mut bytes);
    let pushed = match name_of(alloc) {
        Ok(name) => files.push(Held { name, bytes }).is_ok(),
        Err(_) => false,
    };
    filled & pushed
}

/// It isn't opened, or it isn't read to its end.
const UNOPENED: u64 = 2001;

const UNREAD: u64 = 2002;

/// What is said of the certificate in a library, in short.
fn said_of<L: Library>(alloc: Global, goals: &Wanted, name: &Text, library: &mut L) -> u64 {
    if library.open(name, 100_000) != Opened::Open {
        return UNOPENED;
    }
    match check_open(alloc, goals, library) {
        Ok(end) => said(end),
        Err(_) => UNREAD,
    }
}

/// Whether what must be is said of it each time.
fn are_said<L: Library>(alloc: Global, goals: &Wanted, name: &Text, library: &mut L) -> bool {
    for wanted in &[UNOPENED, UNREAD, UNREAD, UNREAD, 1] {
        if said_of(alloc, goals, name, library) != *wanted {
            return false;
        }
    }
    true
}

/// Whether it is said in a library of the certificate, which has this name.
fn are_read(alloc: Global, goals: &Wanted, name: &Text, fails: Numbers) -> bool {
    let mut files = Files::new(alloc);
    let added = add_file(alloc, &mut files);
    let mut library = Shelf::new(alloc, files, fails);
    let said = are_said(alloc, goals, name, &mut library);
    drop(library);
    added & said
}

/// Whether it is said in a library whose calls of these numbers fail.
fn is_read(alloc: Global, goals: &Wanted, fails: &[u64]) -> bool {
    let Ok(name) = name_of(alloc) else {
        return false;
    };
    let mut numbers = Numbers::new(alloc);
    let told = numbers.extend_from_slice(fails).is_ok();
    told & are_read(alloc, goals, &name, numbers)
}

/// Whether the certificate is judged so: at once, byte by byte and from a library.
fn is_judged(alloc: Global) -> bool {
    let mut goals = Wanted::new(alloc);
    let wanted = want(alloc, &mut goals);
    let whole = is_whole(alloc, &goals);
    // the call that opens it fails at first, then the first one that reads it, then the second one, and then the one that finds its end
    let read = is_read(alloc, &goals, &[1, 3, 6, 10]);
    let taken = match CertReader::new(alloc, goals) {
        Ok(reader) => is_taken(reader),
        Err(_) => false,
    };
    wanted & whole & read & taken
}

#[test]
fn fronts_are_short_and_all_pieces_are_read(rt: HostRuntime) {
    assert!(rt; is_judged(rt.alloc()));
}
