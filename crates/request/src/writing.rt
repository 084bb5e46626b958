// A request written out: its bytes, and zeros behind them.
ghost use Rattle.std.specs.Prelude.{◌≡◌};
ghost use Rattle.request.specs.Writing.{framed};

use crate::{FrameBytes, Request};

pub fn write(request: Request) -> FrameBytes
    ensures { result ≡ framed request }
{
    match request {
        Request::Enrol {
            u,
            new,
            sort,
            level,
            categories,
            admin,
        } => {
            let [c1, c2] = categories.to_be_bytes();
            [0x01, u, new, sort, level, c1, c2, admin, 0]
        }
        Request::Establish { u, room } => [0x02, u, room, 0, 0, 0, 0, 0, 0],
        Request::JoinStaff { u, w, room } => [0x03, u, w, room, 0, 0, 0, 0, 0],
        Request::LeaveStaff { u, w, room } => [0x04, u, w, room, 0, 0, 0, 0, 0],
        Request::JoinOutsider {
            u,
            w,
            room,
            level,
            categories,
        } => {
            let [c1, c2] = categories.to_be_bytes();
            [0x05, u, w, room, level, c1, c2, 0, 0]
        }
        Request::LeaveOutsider { u, w, room } => [0x06, u, w, room, 0, 0, 0, 0, 0],
        Request::Add {
            u,
            script,
            number,
            room,
        } => {
            let [n1, n2, n3, n4] = number.to_be_bytes();
            [0x07, u, script, n1, n2, n3, n4, room, 0]
        }
        Request::Remove {
            u,
            script,
            number,
            room,
        } => {
            let [n1, n2, n3, n4] = number.to_be_bytes();
            [0x08, u, script, n1, n2, n3, n4, room, 0]
        }
        Request::Import {
            u,
            script1,
            number,
            script2,
            room,
        } => {
            let [n1, n2, n3, n4] = number.to_be_bytes();
            [0x09, u, script1, n1, n2, n3, n4, script2, room]
        }
        Request::Merge {
            u,
            script,
            number,
            room,
        } => {
            let [n1, n2, n3, n4] = number.to_be_bytes();
            [0x0A, u, script, n1, n2, n3, n4, room, 0]
        }
        Request::Disband { u, room } => [0x0B, u, room, 0, 0, 0, 0, 0, 0],
        Request::MakeLead { u, w, room } => [0x0C, u, w, room, 0, 0, 0, 0, 0],
        Request::EndLead { u, w, room } => [0x0D, u, w, room, 0, 0, 0, 0, 0],
        Request::OpenInRoom {
            u,
            session,
            room,
            level,
            categories,
        } => {
            let [c1, c2] = categories.to_be_bytes();
            [0x10, u, session, room, level, c1, c2, 0, 0]
        }
        Request::OpenInHouse {
            u,
            session,
            level,
            categories,
        } => {
            let [c1, c2] = categories.to_be_bytes();
            [0x11, u, session, level, c1, c2, 0, 0, 0]
        }
        Request::OpenReadOnly {
            u,
            session,
            level,
            categories,
        } => {
            let [c1, c2] = categories.to_be_bytes();
            [0x12, u, session, level, c1, c2, 0, 0, 0]
        }
        Request::Read {
            session,
            script,
            number,
        } => {
            let [n1, n2, n3, n4] = number.to_be_bytes();
            [0x13, session, script, n1, n2, n3, n4, 0, 0]
        }
        Request::Update {
            session,
            script,
            number,
        } => {
            let [n1, n2, n3, n4] = number.to_be_bytes();
            [0x14, session, script, n1, n2, n3, n4, 0, 0]
        }
        Request::Create { session, script } => [0x15, session, script, 0, 0, 0, 0, 0, 0],
        Request::Kill { u, session } => [0x16, u, session, 0, 0, 0, 0, 0, 0],
        Request::TakeBack { u } => [0x20, u, 0, 0, 0, 0, 0, 0, 0],
    }
}
