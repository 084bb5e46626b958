// The steps of a scene: a change is made as a granted request makes it, and the tables are printed.
ghost use Rattle.std.specs.Prelude.{◌≤◌};

use crate::lines;
use records::Cells;
use std::io;
use std::io::Write;

fn name(kind: u8) -> &'static str {
    match kind {
        0x01 => "Enrol",
        0x02 => "Establish",
        0x03 => "Join staff",
        0x04 => "Leave staff",
        0x05 => "Join outsider",
        0x06 => "Leave outsider",
        0x07 => "Add",
        0x08 => "Remove",
        0x09 => "Import",
        0x0A => "Merge",
        0x0B => "Disband",
        0x0C => "Make lead",
        0x0D => "End lead",
        0x10 => "Open RW in room",
        0x11 => "Open RW in house",
        0x12 => "Open RO",
        0x13 => "Read",
        0x14 => "Update",
        0x15 => "Create",
        0x16 => "Kill",
        0x20 => "Take back",
        _ => "unknown",
    }
}

// How many bytes the body has; an unknown kind has none.
fn length_of(kind: u8) -> usize
    ensures { result ≤ 8 }
{
    let length = request::body_length(kind as u32);
    if 8 < length { 0 } else { length as usize }
}

// The step's number, the kind's name, and the request's bytes.
fn announce<W: Write>(out: &mut W, ordinal: u32, kind: u8, body: u64) -> io::Result<()> {
    let name = name(kind);
    let width = 2 * length_of(kind);
    write!(out, "step {ordinal} {name} {kind:02x}{body:0width$x}")
}

// The request's bytes: the kind, then the body's number, most significant byte first.
fn frame_of(kind: u8, body: u64) -> [u8; 9] {
    let length = length_of(kind);
    let mut frame = [kind, 0, 0, 0, 0, 0, 0, 0, 0];
    frame[1..=length].copy_from_slice(&body.to_be_bytes()[8 - length..]);
    frame
}

fn change<W: Write>(
    out: &mut W,
    records: &mut Cells,
    kind: u8,
    body: u64,
    number: u32,
) -> io::Result<()> {
    let frame = frame_of(kind, body);
    let Ok(request) = request::read(&frame) else {
        return writeln!(out, "no request");
    };
    effects::apply(records, request, number);
    Ok(())
}

// One change, which receives that draft number, 0 for none.
pub fn step<W: Write>(
    out: &mut W,
    records: &mut Cells,
    ordinal: u32,
    kind: u8,
    body: u64,
    number: u32,
) -> io::Result<()> {
    announce(out, ordinal, kind, body)?;
    if number != 0 {
        write!(out, " receives {number}")?;
    }
    writeln!(out)?;
    change(out, records, kind, body, number)?;
    lines::tables(out, records)
}

// The same request again and again, which receives the numbers from first to last.
pub fn fill<W: Write>(
    out: &mut W,
    records: &mut Cells,
    ordinal: u32,
    kind: u8,
    body: u64,
    first: u32,
    last: u32,
) -> io::Result<()> {
    announce(out, ordinal, kind, body)?;
    writeln!(out, " receives {first} to {last}")?;
    for number in first..=last {
        change(out, records, kind, body, number)?;
    }
    lines::tables(out, records)
}
