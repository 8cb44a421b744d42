// The answers as lines.
use packed::{Action, Unpacked};
use std::{fmt, io};
use terms::{Verdict, verdict_number, verdict_place};

// The answer, the paper's number and the place.
pub(crate) fn verdict(rt: &impl Print, v: Verdict) -> io::Result<()> {
    let answer = if v.is_ok() { "accepted" } else { "refused" };
    let number = verdict_number(v);
    let place = verdict_place(v);
    print!(rt; "{answer} {number} {place}")
}

fn set(rt: &impl Print, records: [u16; 4]) -> io::Result<()> {
    print!(rt; " :")?;
    for record in records {
        print!(rt; " {record}")?;
    }
    Ok(())
}

// An action, with the fields that its kind has.
#[derive(Clone, Copy)]
struct Line(Action);

impl fmt::Display for Line {
    fn fmt<W: fmt::Write>(&self, f: &mut fmt::Formatter<W>) -> fmt::Result {
        match self.0 {
            Action::Nothing => write!(f, "nothing"),
            Action::Set { r, c } => write!(f, "set {r} {c}"),
            Action::Add { r, c } => write!(f, "add {r} {c}"),
            Action::Take { r, c } => write!(f, "take {r} {c}"),
            Action::Copy { r, s } => write!(f, "copy {r} {s}"),
            Action::Move { r, s } => write!(f, "move {r} {s}"),
            Action::Floor { r, c } => write!(f, "floor {r} {c}"),
        }
    }
}

// A whole line: the verdict and the meaning.
pub(crate) fn unpacked(rt: &impl Print, u: Unpacked) -> io::Result<()> {
    verdict(rt, u.verdict)?;
    let m = u.meaning;
    print!(rt; " {} {} {}", m.readcount, m.writecount, m.actioncount)?;
    set(rt, m.reads)?;
    set(rt, m.writes)?;
    for row in m.actions {
        let line = Line(row.action);
        print!(rt; " : {line}")?;
    }
    println!(rt)
}

// The bytes in hexadecimal, and a dash for none.
pub(crate) fn hex(rt: &impl Print, bytes: &[u8]) -> io::Result<()> {
    if bytes.is_empty() {
        return print!(rt; "-");
    }
    for value in bytes {
        print!(rt; "{value:02x}")?;
    }
    Ok(())
}
