// A request read off its bytes: its fields, and the frame at the start of a string.
ghost use Rattle.std.specs.Prelude.{◌≡◌};
ghost use Rattle.request.specs.Bytes.{◌#◌};
ghost use Rattle.request.specs.Reading.{request_of, frame_of, start_of};

use crate::{FrameBytes, FrameError, Request, UNKNOWN, body_length};

// Byte i of some bytes, zero past their end.
pub fn byte_at(bytes: &[u8], i: usize) -> u8
    ensures { result ≡ bytes.now # i }
{
    bytes.get(i).copied().unwrap_or(0)
}

// The request that a frame's bytes spell, the first of them its kind; of an unknown kind, for which nobody asks, a take-back.
pub fn request_of(frame: FrameBytes) -> Request
    ensures { result ≡ request_of (frame # 0) frame }
{
    match frame {
        [0x01, u, new, sort, level, c1, c2, admin, ..] => Request::Enrol {
            u,
            new,
            sort,
            level,
            categories: u16::from_be_bytes([c1, c2]),
            admin,
        },
        [0x02, u, room, ..] => Request::Establish { u, room },
        [0x03, u, w, room, ..] => Request::JoinStaff { u, w, room },
        [0x04, u, w, room, ..] => Request::LeaveStaff { u, w, room },
        [0x05, u, w, room, level, c1, c2, ..] => Request::JoinOutsider {
            u,
            w,
            room,
            level,
            categories: u16::from_be_bytes([c1, c2]),
        },
        [0x06, u, w, room, ..] => Request::LeaveOutsider { u, w, room },
        [0x07, u, script, n1, n2, n3, n4, room, ..] => Request::Add {
            u,
            script,
            number: u32::from_be_bytes([n1, n2, n3, n4]),
            room,
        },
        [0x08, u, script, n1, n2, n3, n4, room, ..] => Request::Remove {
            u,
            script,
            number: u32::from_be_bytes([n1, n2, n3, n4]),
            room,
        },
        [0x09, u, script1, n1, n2, n3, n4, script2, room] => Request::Import {
            u,
            script1,
            number: u32::from_be_bytes([n1, n2, n3, n4]),
            script2,
            room,
        },
        [0x0A, u, script, n1, n2, n3, n4, room, ..] => Request::Merge {
            u,
            script,
            number: u32::from_be_bytes([n1, n2, n3, n4]),
            room,
        },
        [0x0B, u, room, ..] => Request::Disband { u, room },
        [0x0C, u, w, room, ..] => Request::MakeLead { u, w, room },
        [0x0D, u, w, room, ..] => Request::EndLead { u, w, room },
        [0x10, u, session, room, level, c1, c2, ..] => Request::OpenInRoom {
            u,
            session,
            room,
            level,
            categories: u16::from_be_bytes([c1, c2]),
        },
        [0x11, u, session, level, c1, c2, ..] => Request::OpenInHouse {
            u,
            session,
            level,
            categories: u16::from_be_bytes([c1, c2]),
        },
        [0x12, u, session, level, c1, c2, ..] => Request::OpenReadOnly {
            u,
            session,
            level,
            categories: u16::from_be_bytes([c1, c2]),
        },
        [0x13, session, script, n1, n2, n3, n4, ..] => Request::Read {
            session,
            script,
            number: u32::from_be_bytes([n1, n2, n3, n4]),
        },
        [0x14, session, script, n1, n2, n3, n4, ..] => Request::Update {
            session,
            script,
            number: u32::from_be_bytes([n1, n2, n3, n4]),
        },
        [0x15, session, script, ..] => Request::Create { session, script },
        [0x16, u, session, ..] => Request::Kill { u, session },
        [0x20, u, ..] => Request::TakeBack { u },
        _ => Request::TakeBack { u: 0 },
    }
}

// How long the body of the request is at the start of the bytes.
pub fn start_of(bytes: &[u8]) -> Result<u32, FrameError>
    ensures { result ≡ start_of bytes.now }
{
    if bytes.len() == 0 {
        return Err(FrameError::Cut);
    }
    let kind = bytes[0];
    let length = body_length(u32::from(kind));
    if length == UNKNOWN {
        return Err(FrameError::Unknown);
    }
    if bytes.len() <= length as usize {
        return Err(FrameError::Cut);
    }
    Ok(length)
}

// The request that the first bytes spell, where they are a whole one; those behind it are not read.
pub fn first(bytes: &[u8]) -> Request
    ensures { result ≡ request_of (bytes.now # 0) bytes.now }
{
    request_of([
        byte_at(bytes, 0),
        byte_at(bytes, 1),
        byte_at(bytes, 2),
        byte_at(bytes, 3),
        byte_at(bytes, 4),
        byte_at(bytes, 5),
        byte_at(bytes, 6),
        byte_at(bytes, 7),
        byte_at(bytes, 8),
    ])
}

// Both at once, for who asks for one request alone.
#[tactic(auto, using(crate::proofs::Ways::as_framed))]
pub fn read(bytes: &[u8]) -> Result<Request, FrameError>
    ensures { result ≡ frame_of bytes.now }
{
    start_of(bytes)?;
    Ok(first(bytes))
}
