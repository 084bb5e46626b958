// Both sides of each line of 01's refusal table, for each kind and each refusal of the judge. Standard input has a line a case: a letter for the house,
// which is a capital where the desk is under rule 2, the request in hex with its fields apart, and a word. The line written for it has the kind, the word and
// the ruling: C0 and n added, refused with n; 80, granted; 81, granted with a number; 20, a change may be taken back.
#![tactic(auto)]

ghost use Rattle.std.specs.Prelude.{◌<◌};

use judge::Grant;
use reasons::Reason;
use records::{Cells, Draft, Rule, Script, Session, User};
use std::io::{self, Read, Write};

// ---- the houses; a set of places has place p as bit p
fn user(sort: u8, level: u8, categories: u16, rooms: u32, leads: u32, admin: bool) -> User {
    User {
        here: true,
        sort,
        level,
        categories,
        rooms,
        leads,
        admin,
    }
}

fn script(level: u8, categories: u16, origin: u8) -> Script {
    Script {
        here: true,
        level,
        categories,
        origin,
    }
}

fn writer(owner: u8, level: u8, categories: u16, place: u8) -> Session {
    Session {
        here: true,
        owner,
        level,
        categories,
        writes: true,
        place,
    }
}

fn reader(owner: u8, level: u8, categories: u16) -> Session {
    Session {
        here: true,
        owner,
        level,
        categories,
        writes: false,
        place: 255,
    }
}

fn draft(number: u32, script: u8, places: u32) -> Draft {
    Draft {
        number,
        script,
        places,
    }
}

// Rooms 1 and 2, led by users 0 and 1. User 0 is the administrator, user 2 staff in no room, users 3 and 5 freelancers in rooms 1 and 2, user 4 an outsider.
fn daily_users(records: &mut Cells) {
    records::put_user(records, 0, user(0, 5, 3, 2, 2, true));
    records::put_user(records, 1, user(0, 5, 3, 6, 4, false));
    records::put_user(records, 2, user(0, 2, 1, 0, 0, false));
    records::put_user(records, 3, user(1, 2, 1, 2, 0, false));
    records::put_user(records, 4, user(2, 0, 0, 0, 0, false));
    records::put_user(records, 5, user(1, 2, 1, 4, 0, false));
    records::put_rooms(records, 6);
}

// Scripts 0 and 4 to 8 are the house's, 1 and 2 room 1's, 3 room 2's. Drafts 1, 2 and 3 of script 0 are in the house, in house and room 1, in room 1 alone.
fn daily_texts(records: &mut Cells) {
    records::put_script(records, 0, script(2, 1, 0));
    records::put_script(records, 1, script(2, 1, 1));
    records::put_script(records, 2, script(3, 1, 1));
    records::put_script(records, 3, script(2, 1, 2));
    records::put_script(records, 4, script(2, 3, 0));
    records::put_script(records, 5, script(3, 3, 0));
    records::put_script(records, 6, script(3, 1, 0));
    records::put_script(records, 7, script(2, 0, 0));
    records::put_script(records, 8, script(2, 2, 0));
    records::add_draft(records, draft(1, 0, 1));
    records::add_draft(records, draft(2, 0, 3));
    records::add_draft(records, draft(3, 0, 2));
    records::add_draft(records, draft(4, 1, 2));
    records::add_draft(records, draft(5, 2, 2));
    records::add_draft(records, draft(6, 3, 4));
    records::add_draft(records, draft(7, 4, 1));
    records::add_draft(records, draft(8, 5, 1));
    records::add_draft(records, draft(9, 6, 1));
    records::add_draft(records, draft(10, 7, 1));
    records::add_draft(records, draft(11, 8, 1));
}

// Sessions 0 and 6 write in the house, 2, 4 and 5 in room 1; 1 and 3 are RO, of user 0 and of user 3.
fn daily_sessions(records: &mut Cells) {
    records::put_session(records, 0, writer(0, 2, 1, 0));
    records::put_session(records, 1, reader(0, 2, 1));
    records::put_session(records, 2, writer(0, 2, 1, 1));
    records::put_session(records, 3, reader(3, 2, 1));
    records::put_session(records, 4, writer(3, 2, 1, 1));
    records::put_session(records, 5, writer(0, 3, 1, 1));
    records::put_session(records, 6, writer(1, 3, 3, 0));
}

// The daily house, with script 0's drafts from 12 up to the one before `end` beside its own 11.
fn daily(end: u32) -> Cells {
    let mut records = [0u32; 1858];
    daily_users(&mut records);
    daily_texts(&mut records);
    daily_sessions(&mut records);
    for number in 12..end {
        records::add_draft(&mut records, draft(number, 0, 1));
    }
    records
}

// The daily house, in which user 2 leads room 1 beside user 0.
fn led() -> Cells {
    let mut records = daily(12);
    records::put_user(&mut records, 2, user(0, 2, 1, 0, 2, false));
    records
}

// The last of each range: user, script and session 63, room 16, level 7, all categories. Room 1 is led by user 60.
fn edge() -> Cells {
    let mut records = [0u32; 1858];
    records::put_user(
        &mut records,
        63,
        user(0, 7, 0xFFFF, 0x1_0000, 0x1_0000, true),
    );
    records::put_user(&mut records, 62, user(2, 0, 0, 0, 0, false));
    records::put_user(&mut records, 61, user(0, 0, 0, 0, 0, false));
    records::put_user(&mut records, 60, user(0, 0, 0, 2, 2, false));
    records::put_user(&mut records, 59, user(1, 0, 0, 0x1_0000, 0, false));
    records::put_rooms(&mut records, 0x1_0002);
    records::put_script(&mut records, 63, script(7, 0xFFFF, 0));
    records::put_script(&mut records, 62, script(7, 0xFFFF, 16));
    records::add_draft(&mut records, draft(1, 63, 1));
    records::add_draft(&mut records, draft(2, 63, 0x1_0001));
    records::add_draft(&mut records, draft(3, 63, 0x1_0000));
    records::add_draft(&mut records, draft(4, 62, 0x1_0000));
    records::put_session(&mut records, 63, writer(63, 7, 0xFFFF, 0));
    records
}

// d the daily house, l with a second lead, a and f with 255 and 256 live drafts, e the last of each range; any other letter no records.
fn house(letter: u8) -> Cells {
    match letter {
        b'd' => daily(12),
        b'l' => led(),
        b'a' => daily(256),
        b'f' => daily(257),
        b'e' => edge(),
        _ => [0u32; 1858],
    }
}

// ---- a case
fn answer(ruling: Result<Grant, Reason>) -> u8 {
    match ruling {
        Err(reason) => {
            let n = reason.number;
            if n < 63 { 192 + n } else { 255 }
        }
        Ok(Grant::Pass) | Ok(Grant::Keep) => 0x80,
        Ok(Grant::KeepNumbered) => 0x81,
        Ok(Grant::TakeBack) => 0x20,
    }
}

fn rule_by(letter: u8) -> Rule {
    if letter.is_ascii_uppercase() {
        Rule::Two
    } else {
        Rule::One
    }
}

// The first n bytes of a frame judged. What is no request is a mistake of the case: 00.
fn ruled(letter: u8, frame: &[u8], n: usize) -> u8 {
    if frame.len() < n {
        return 0;
    }
    let records = house(letter.to_ascii_lowercase());
    let rule = rule_by(letter);
    match request::read(&frame[..n]) {
        Ok(request) => answer(judge::judge(&records, rule, request)),
        Err(_) => 0,
    }
}

// Of a hex digit. The same stands in edges: one small function is no crate.
fn value(digit: u8) -> u8
    ensures { result < 16 }
{
    // 0 to 9; A to F, a to f
    if digit < 58 {
        digit % 16
    } else {
        (digit - 55) % 16
    }
}

// Puts the bytes that a word shows in hex, and says how many they are; between fields stands a low line.
fn hex(word: &[u8], room: &mut [u8]) -> usize {
    let mut digits = 0;
    for digit in word {
        if *digit != b'_' && digits / 2 < room.len() {
            room[digits / 2] = room[digits / 2] % 16 * 16 + value(*digit);
            digits += 1;
        }
    }
    digits / 2
}

// Two digits put together first, so that they and what stands beside them are one write.
fn pair(byte: u8) -> io::Result<[u8; 2]> {
    let mut digits = [0u8; 2];
    write!(&mut &mut digits[..], "{byte:02X}")?;
    Ok(digits)
}

// A line that the end of the input cuts short has no ruling.
fn case<W: Write>(out: &mut W, line: &[u8]) -> io::Result<()> {
    let ended = line.strip_suffix(b"\n");
    let mut fields = ended.unwrap_or(line).split(|byte| *byte == b' ');
    let house = fields.next().unwrap_or_default();
    let mut frame = [0u8; 16];
    let n = hex(fields.next().unwrap_or_default(), &mut frame);
    for word in fields {
        let [high, low] = pair(frame[0])?;
        out.write_all(&[high, low, b' '])?;
        out.write_all(word)?;
    }
    if ended.is_none() {
        return Ok(());
    }
    let letter = house.last().copied().unwrap_or_default();
    let [high, low] = pair(ruled(letter, &frame, n))?;
    out.write_all(&[b' ', high, low, b'\n'])
}

// ---- the input
// As much of it as there is room for is read.
fn main(rt: HostRuntime) -> io::Result<()> {
    let mut input = [0u8; 65536];
    let n = io::copy(&mut rt.stdin().take(65536), &mut &mut input[..])? as usize;
    let mut out = io::writer(&rt);
    for line in input[..n.min(65536)].split_inclusive(|byte| *byte == b'\n') {
        case(&mut out, line)?;
    }
    Ok(())
}
