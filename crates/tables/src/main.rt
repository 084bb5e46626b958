// Builds eight houses by changes and prints each one's tables after each step, to be compared with what documents 01 and 02 say.
// A step's line: its scene and number in the scene (307 is the seventh of the third), the kind, the request's bytes, the draft number received.
// Then the rooms that exist, a line for each user, script and session that is there, the drafts in the order of their table, how many live.
// Drafts that follow one another by one, with the same script and the same places, share a line. Categories and sets are hexadecimal.
#![tactic(auto)]

mod lines;
mod steps;

use records::Cells;
use std::io;
use std::io::Write;
use steps::{fill, step};

// A freelancer keeps the label at a second room, and is relabelled only when in no room.
fn people<W: Write>(out: &mut W, records: &mut Cells) -> io::Result<()> {
    records::clear(records);
    step(out, records, 101, 0x01, 0x00_00_00_07_FFFF_01, 0)?; // the first user enrols as staff and administrator
    step(out, records, 102, 0x01, 0x00_3F_00_05_0003_01, 0)?; // staff, the last user number
    step(out, records, 103, 0x01, 0x00_01_02_00_0000_00, 0)?; // an outsider
    step(out, records, 104, 0x02, 0x00_01, 0)?; // user 0 leads the first room
    step(out, records, 105, 0x02, 0x3F_10, 0)?; // user 63 leads the last room
    step(out, records, 106, 0x03, 0x00_3F_01, 0)?; // staff joins
    step(out, records, 107, 0x03, 0x3F_3F_10, 0)?; // the lead joins the room that it leads
    step(out, records, 108, 0x05, 0x00_01_01_02_0001, 0)?; // the outsider is a freelancer with the label given
    step(out, records, 109, 0x05, 0x3F_01_10_07_FFFF, 0)?; // second room: the label stays
    step(out, records, 110, 0x10, 0x01_00_01_02_0001, 0)?; // the freelancer's RW session of room 1
    step(out, records, 111, 0x10, 0x01_3F_10_01_0000, 0)?; // and of room 16
    step(out, records, 112, 0x12, 0x01_05_02_0001, 0)?; // and an RO session
    step(out, records, 113, 0x06, 0x00_01_01, 0)?; // leaves room 1: that room's RW session ends
    step(out, records, 114, 0x06, 0x3F_01_10, 0)?; // leaves room 16: still a freelancer, with the label
    step(out, records, 115, 0x05, 0x00_01_01_04_8000, 0)?; // in no room: the label is the one given now, which lacks a category of the RO session, and that ends
    step(out, records, 116, 0x04, 0x00_3F_01, 0)?; // staff leaves
    step(out, records, 117, 0x04, 0x3F_3F_10, 0)?; // the lead leaves, and leads still
    Ok(())
}

// A leave ends the RW sessions of that user in that room, and no other; then two sessions are killed.
fn leave_ends<W: Write>(out: &mut W, records: &mut Cells) -> io::Result<()> {
    records::clear(records);
    step(out, records, 201, 0x01, 0x00_00_00_07_FFFF_01, 0)?; // user 0, staff
    step(out, records, 202, 0x01, 0x00_02_00_05_0003_00, 0)?; // user 2, staff
    step(out, records, 203, 0x02, 0x00_01, 0)?; // room 1
    step(out, records, 204, 0x02, 0x00_10, 0)?; // room 16
    step(out, records, 205, 0x03, 0x00_00_01, 0)?; // user 0 in room 1
    step(out, records, 206, 0x03, 0x00_02_01, 0)?; // user 2 in room 1
    step(out, records, 207, 0x03, 0x00_02_10, 0)?; // user 2 in room 16
    step(out, records, 208, 0x10, 0x02_00_01_05_0003, 0)?; // user 2, RW in room 1: will end
    step(out, records, 209, 0x10, 0x02_01_10_04_0001, 0)?; // user 2, RW in room 16: stays
    step(out, records, 210, 0x12, 0x02_02_05_0002, 0)?; // user 2, RO: stays
    step(out, records, 211, 0x11, 0x02_03_00_0000, 0)?; // user 2, RW in the house: stays
    step(out, records, 212, 0x10, 0x00_3E_01_07_FFFF, 0)?; // user 0, RW in room 1: stays
    step(out, records, 213, 0x10, 0x02_3F_01_01_0000, 0)?; // user 2, RW in room 1, the last session number: will end
    step(out, records, 214, 0x04, 0x00_02_01, 0)?; // user 2 leaves room 1
    step(out, records, 215, 0x16, 0x00_01, 0)?; // the lead of room 16 kills an RW session there
    step(out, records, 216, 0x16, 0x02_02, 0)?; // the owner kills an RO session
    Ok(())
}

// Drafts of a house script and of a room script: places added, taken and merged, and the last place taken.
fn drafts<W: Write>(out: &mut W, records: &mut Cells) -> io::Result<()> {
    records::clear(records);
    step(out, records, 301, 0x01, 0x00_00_00_07_FFFF_01, 0)?; // user 0
    step(out, records, 302, 0x02, 0x00_01, 0)?; // room 1
    step(out, records, 303, 0x03, 0x00_00_01, 0)?; // user 0 in room 1
    step(out, records, 304, 0x11, 0x00_00_07_FFFF, 0)?; // session 0 writes in the house
    step(out, records, 305, 0x10, 0x00_3F_01_07_FFFF, 0)?; // session 63 writes in room 1
    step(out, records, 306, 0x15, 0x00_00, 1)?; // house script 0
    step(out, records, 307, 0x07, 0x00_00_00000001_01, 0)?; // draft 1 in the house and in room 1
    step(out, records, 308, 0x13, 0x3F_00_00000001, 0)?; // Read changes nothing
    step(out, records, 309, 0x14, 0x3F_00_00000001, 2)?; // the session's place only, not those of draft 1
    step(out, records, 310, 0x0A, 0x00_00_00000002_01, 0)?; // draft 2 in the house too
    step(out, records, 311, 0x0A, 0x00_00_00000002_01, 0)?; // it is there already: the places stay
    step(out, records, 312, 0x08, 0x00_00_00000001_01, 0)?; // one of two places
    step(out, records, 313, 0x14, 0x3F_00_00000002, 3)?; // draft 3 in room 1 only
    step(out, records, 314, 0x08, 0x00_00_00000003_01, 0)?; // the last place: draft 3 goes, script 0 has others
    step(out, records, 315, 0x15, 0x3F_3F, 4)?; // room script 63
    step(out, records, 316, 0x14, 0x3F_3F_00000004, 5)?; // its second draft
    step(out, records, 317, 0x09, 0x00_3F_00000004_00_01, 6)?; // into house script 0
    step(out, records, 318, 0x08, 0x00_3F_00000004_01, 0)?; // draft 4 goes, script 63 has another
    step(out, records, 319, 0x08, 0x00_3F_00000005_01, 0)?; // the last draft: script 63 goes
    step(out, records, 320, 0x15, 0x00_3F, 7)?; // the script's number again, in the house
    step(out, records, 321, 0x20, 0x00, 0)?; // Take back changes nothing here: the desk undoes
    Ok(())
}

// Disband takes the room from users and places; its scripts, drafts and RW sessions go, what is elsewhere stays.
fn disbanding<W: Write>(out: &mut W, records: &mut Cells) -> io::Result<()> {
    records::clear(records);
    step(out, records, 401, 0x01, 0x00_00_00_05_0003_01, 0)?; // user 0
    step(out, records, 402, 0x01, 0x00_3F_00_05_0003_00, 0)?; // user 63, staff
    step(out, records, 403, 0x01, 0x00_01_02_00_0000_00, 0)?; // user 1, outsider
    step(out, records, 404, 0x02, 0x00_01, 0)?; // room 1
    step(out, records, 405, 0x02, 0x00_10, 0)?; // room 16
    step(out, records, 406, 0x03, 0x00_00_01, 0)?; // user 0 in room 1
    step(out, records, 407, 0x03, 0x00_3F_01, 0)?; // user 63 in room 1
    step(out, records, 408, 0x03, 0x00_3F_10, 0)?; // user 63 in room 16
    step(out, records, 409, 0x05, 0x00_01_01_02_0001, 0)?; // user 1 in room 1
    step(out, records, 410, 0x11, 0x00_00_05_0003, 0)?; // session 0, house: stays
    step(out, records, 411, 0x10, 0x3F_01_01_05_0003, 0)?; // session 1, room 1: ends
    step(out, records, 412, 0x10, 0x3F_02_10_05_0003, 0)?; // session 2, room 16: stays
    step(out, records, 413, 0x12, 0x01_03_02_0001, 0)?; // session 3, RO of a member: stays
    step(out, records, 414, 0x10, 0x01_3F_01_02_0001, 0)?; // session 63, room 1, of a freelancer: ends
    step(out, records, 415, 0x15, 0x00_00, 1)?; // house script 0
    step(out, records, 416, 0x07, 0x00_00_00000001_01, 0)?; // in room 1
    step(out, records, 417, 0x07, 0x00_00_00000001_10, 0)?; // and in room 16
    step(out, records, 418, 0x14, 0x01_00_00000001, 2)?; // a house draft in room 1 only: goes
    step(out, records, 419, 0x14, 0x02_00_00000001, 3)?; // a house draft in room 16 only: stays
    step(out, records, 420, 0x15, 0x01_01, 4)?; // script 1 of room 1: goes
    step(out, records, 421, 0x15, 0x02_02, 5)?; // script 2 of room 16: stays
    step(out, records, 422, 0x15, 0x3F_3F, 6)?; // script 63 of room 1: goes
    step(out, records, 423, 0x14, 0x01_01_00000004, 7)?; // a second draft of script 1: goes
    step(out, records, 424, 0x14, 0x00_00_00000001, 8)?; // a house draft in the house only: stays
    step(out, records, 425, 0x0B, 0x00_01, 0)?; // room 1 goes
    step(out, records, 426, 0x0B, 0x00_10, 0)?; // room 16 goes
    step(out, records, 427, 0x02, 0x00_01, 0)?; // room 1 anew: nobody is in it
    Ok(())
}

// The largest draft numbers, 4294967294 and 4294967295.
fn last_numbers<W: Write>(out: &mut W, records: &mut Cells) -> io::Result<()> {
    records::clear(records);
    step(out, records, 501, 0x01, 0x3F_3F_00_07_FFFF_01, 0)?; // user 63
    step(out, records, 502, 0x02, 0x3F_10, 0)?; // room 16
    step(out, records, 503, 0x03, 0x3F_3F_10, 0)?; // user 63 in room 16
    step(out, records, 504, 0x11, 0x3F_00_07_FFFF, 0)?; // session 0 writes in the house
    step(out, records, 505, 0x10, 0x3F_3F_10_07_FFFF, 0)?; // session 63 writes in room 16
    step(out, records, 506, 0x15, 0x00_3F, 4294967294)?; // script 63
    step(out, records, 507, 0x07, 0x3F_3F_FFFFFFFE_10, 0)?; // into room 16
    step(out, records, 508, 0x14, 0x3F_3F_FFFFFFFE, 4294967295)?; // the last number
    step(out, records, 509, 0x0A, 0x3F_3F_FFFFFFFF_10, 0)?; // into the house
    step(out, records, 510, 0x08, 0x3F_3F_FFFFFFFE_10, 0)?; // out of room 16
    step(out, records, 511, 0x08, 0x3F_3F_FFFFFFFF_10, 0)?; // out of room 16
    Ok(())
}

// At most 256 drafts live; room freed by deleted drafts is used again, and the numbers still ascend.
fn full<W: Write>(out: &mut W, records: &mut Cells) -> io::Result<()> {
    records::clear(records);
    step(out, records, 601, 0x01, 0x00_00_00_07_FFFF_01, 0)?; // user 0
    step(out, records, 602, 0x02, 0x00_01, 0)?; // room 1
    step(out, records, 603, 0x02, 0x00_10, 0)?; // room 16
    step(out, records, 604, 0x03, 0x00_00_01, 0)?; // user 0 in room 1
    step(out, records, 605, 0x03, 0x00_00_10, 0)?; // user 0 in room 16
    step(out, records, 606, 0x11, 0x00_00_07_FFFF, 0)?; // session 0 writes in the house
    step(out, records, 607, 0x10, 0x00_01_01_07_FFFF, 0)?; // session 1 in room 1
    step(out, records, 608, 0x10, 0x00_02_10_07_FFFF, 0)?; // session 2 in room 16
    step(out, records, 609, 0x15, 0x00_3F, 1)?; // script 63
    step(out, records, 610, 0x07, 0x00_3F_00000001_01, 0)?; // draft 1 in room 1
    step(out, records, 611, 0x07, 0x00_3F_00000001_10, 0)?; // and in room 16
    fill(out, records, 612, 0x14, 0x01_3F_00000001, 2, 64)?; // in room 1
    fill(out, records, 613, 0x14, 0x02_3F_00000001, 65, 128)?; // in room 16
    fill(out, records, 614, 0x14, 0x01_3F_00000001, 129, 192)?; // in room 1
    fill(out, records, 615, 0x14, 0x00_3F_00000001, 193, 255)?; // in the house
    step(out, records, 616, 0x14, 0x00_3F_00000001, 256)?; // the 256th is stored
    step(out, records, 617, 0x14, 0x00_3F_00000001, 257)?; // the 257th is not
    step(out, records, 618, 0x08, 0x00_3F_00000007_01, 0)?; // draft 7 goes
    step(out, records, 619, 0x14, 0x02_3F_00000001, 257)?; // in the room that it left
    step(out, records, 620, 0x0B, 0x00_01, 0)?; // the drafts in room 1 only go
    fill(out, records, 621, 0x14, 0x00_3F_00000001, 258, 383)?; // full again
    step(out, records, 622, 0x14, 0x00_3F_00000001, 384)?; // not stored
    Ok(())
}

// A freelancer comes back to a first room: the sessions that the new label does not cover end. At a second room, and back in one of two, none does.
fn coming_back<W: Write>(out: &mut W, records: &mut Cells) -> io::Result<()> {
    records::clear(records);
    step(out, records, 701, 0x01, 0x00_00_00_07_FFFF_01, 0)?; // user 0, staff
    step(out, records, 702, 0x01, 0x00_01_02_00_0000_00, 0)?; // user 1, outsider
    step(out, records, 703, 0x01, 0x00_3F_02_00_0000_00, 0)?; // user 63, outsider
    step(out, records, 704, 0x02, 0x00_01, 0)?; // room 1
    step(out, records, 705, 0x02, 0x00_10, 0)?; // room 16
    step(out, records, 706, 0x05, 0x00_01_01_05_0003, 0)?; // user 1 in room 1 at level 5
    step(out, records, 707, 0x05, 0x00_3F_01_05_0003, 0)?; // user 63 likewise
    step(out, records, 708, 0x12, 0x01_00_05_0003, 0)?; // user 1, RO at level 5: will end
    step(out, records, 709, 0x12, 0x01_01_03_0001, 0)?; // one level above the new label: will end
    step(out, records, 710, 0x12, 0x01_02_01_0003, 0)?; // below it, with a category more: will end
    step(out, records, 711, 0x12, 0x01_03_02_0001, 0)?; // exactly at it: stays
    step(out, records, 712, 0x12, 0x01_04_02_0000, 0)?; // at its level, with a category less: stays
    step(out, records, 713, 0x12, 0x01_05_00_0001, 0)?; // at its categories, below its level: stays
    step(out, records, 714, 0x12, 0x3F_06_05_0003, 0)?; // user 63, RO at level 5: stays
    step(out, records, 715, 0x10, 0x01_3E_10_03_0001, 0)?; // user 1, RW in room 16 without having joined it, which no desk grants: will end
    step(out, records, 716, 0x10, 0x01_3F_10_02_0001, 0)?; // the same exactly at the new label: stays
    step(out, records, 717, 0x06, 0x00_01_01, 0)?; // user 1 leaves the only room: the sessions stay
    step(out, records, 718, 0x05, 0x00_01_01_02_0001, 0)?; // user 1 comes back at level 2
    step(out, records, 719, 0x12, 0x01_00_02_0001, 0)?; // session 0 anew, within the label
    step(out, records, 720, 0x05, 0x00_01_10_00_0000, 0)?; // a second room: nothing ends, and the label stays
    step(out, records, 721, 0x06, 0x00_01_01, 0)?; // leaves one of two rooms
    step(out, records, 722, 0x05, 0x00_01_01_00_0000, 0)?; // and joins it again: nothing ends
    Ok(())
}

// Leads are made and ended: nobody joins or leaves a room by that, and no session ends.
fn leading<W: Write>(out: &mut W, records: &mut Cells) -> io::Result<()> {
    records::clear(records);
    step(out, records, 801, 0x01, 0x00_00_00_07_FFFF_01, 0)?; // user 0, staff
    step(out, records, 802, 0x01, 0x00_01_00_05_0003_00, 0)?; // user 1, staff
    step(out, records, 803, 0x01, 0x00_3F_00_05_0003_00, 0)?; // user 63, staff
    step(out, records, 804, 0x02, 0x00_01, 0)?; // user 0 leads room 1
    step(out, records, 805, 0x02, 0x00_10, 0)?; // and room 16
    step(out, records, 806, 0x0C, 0x00_3F_10, 0)?; // user 63 leads room 16 too, and is not in it
    step(out, records, 807, 0x0C, 0x3F_01_10, 0)?; // a third lead, made by the second
    step(out, records, 808, 0x0C, 0x00_01_01, 0)?; // user 1 leads room 1 too
    step(out, records, 809, 0x03, 0x00_3F_10, 0)?; // user 63 joins room 16
    step(out, records, 810, 0x10, 0x3F_00_10_05_0003, 0)?; // and has an RW session there
    step(out, records, 811, 0x0D, 0x01_3F_10, 0)?; // user 63 leads no longer: still in the room, and the session stays
    step(out, records, 812, 0x0D, 0x01_00_10, 0)?; // nor does user 0, who established it; room 1 is led as before
    step(out, records, 813, 0x0D, 0x01_01_01, 0)?; // the own lead of room 1: that of room 16 stays
    step(out, records, 814, 0x0D, 0x00_01_01, 0)?; // who does not lead, which no desk grants: nothing changes
    step(out, records, 815, 0x0C, 0x01_3F_10, 0)?; // user 63 leads room 16 again
    step(out, records, 816, 0x0B, 0x3F_10, 0)?; // room 16 goes, and both leads with it
    Ok(())
}

fn scenes<W: Write>(out: &mut W) -> io::Result<()> {
    let mut records = [0u32; 1858];
    people(out, &mut records)?;
    leave_ends(out, &mut records)?;
    drafts(out, &mut records)?;
    disbanding(out, &mut records)?;
    last_numbers(out, &mut records)?;
    full(out, &mut records)?;
    coming_back(out, &mut records)?;
    leading(out, &mut records)
}

fn main(rt: HostRuntime) -> io::Result<()> {
    let mut out = io::writer(&rt);
    scenes(&mut out)?;
    out.flush()
}
