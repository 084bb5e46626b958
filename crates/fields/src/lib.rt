// The facts that 01's refusal table asks of a request's own fields.
#![tactic(auto)]

ghost use Rattle.std.specs.Prelude.{◌≡◌};
ghost use Rattle.fields.specs.Fields.{is_id, to_sixteen, from_one, is_level, is_sort, is_yes_no, is_plain, is_first};

pub fn is_id(id: u8) -> bool
    ensures { result ≡ is_id id }
{
    id <= 63
}

// A room is 1 to 16.
pub fn to_sixteen(room: u8) -> bool
    ensures { result ≡ to_sixteen room }
{
    room <= 16
}

pub fn from_one(room: u8) -> bool
    ensures { result ≡ from_one room }
{
    1 <= room
}

pub fn is_level(level: u8) -> bool
    ensures { result ≡ is_level level }
{
    level <= 7
}

pub fn is_sort(sort: u8) -> bool
    ensures { result ≡ is_sort sort }
{
    (sort == 0) | (sort == 2)
}

pub fn is_yes_no(admin: u8) -> bool
    ensures { result ≡ is_yes_no admin }
{
    admin <= 1
}

// An outsider comes with nothing: the field is his level, categories or admin.
pub fn is_plain(sort: u8, field: u16) -> bool
    ensures { result ≡ is_plain sort field }
{
    (sort != 2) | (field == 0)
}

// Who enrols on a desk without users: himself, as staff and administrator, each of them a field and the value wanted.
pub fn is_first(empty: bool, field: u8, wanted: u8) -> bool
    ensures { result ≡ is_first empty field wanted }
{
    !empty | (field == wanted)
}
