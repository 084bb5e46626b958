// The names of files: the folder that a name is in, and the name of a new file beside it.
ghost use Rattle.std.specs.Prelude.{◌≡◌, ◌≢◌, ℕ, ◌+◌, ◌-◌, ◌<◌, ◌≤◌, length, take, slice_index};
ghost use Rattle.desk.specs.Counts.{IsPrefixLen};
ghost use Rattle.desk.specs.Lines.{Put};
ghost use Rattle.desk.specs.Names.{folder_length, beside_name};

use crate::lines::Text;

// How many bytes of a name are its folder, with the `/` behind it; 0 where it names none.
#[tactic(auto, using(crate::proofs::Folders::none_left))]
pub(crate) fn folder_length(name: &[u8]) -> usize
    ensures value { result ≡ folder_length name.now }
    ensures prefix_len { IsPrefixLen result name.now }
{
    match name.iter().rposition(|byte| *byte == b'/') {
        Some(i) => i + 1,
        None => 0,
    }
}

// The name of a new file beside it, with six letters at its end for which `put_letters` puts others.
pub(crate) fn put_beside(name: &[u8], out: &mut [u8]) -> usize
    requires { length name.now + 7 ≤ length out.old }
    ensures put { Put out.old 0 (beside_name name.now) result out.new }
    ensures prefix_len { IsPrefixLen result out.new }
{
    let mut text = Text { out, end: 0 };
    text.append(name);
    text.append(b".XXXXXX");
    text.end
}

// A digit or a letter.
fn letter(n: u8) -> u8
    ensures { result ≢ 47 }
{
    let k = n % 62;
    if k < 10 {
        48 + k
    } else if k < 36 {
        55 + k
    } else {
        61 + k
    }
}

// Other letters for the last six bytes of a name: the name stays in its folder.
pub(crate) fn put_letters(random: [u8; 6], name: &mut [u8])
    ensures front { take (length name.old - 6) name.new ≡ take (length name.old - 6) name.old }
    ensures letters { (k : ℕ) → length name.old ≤ k + 6 → k < length name.old → slice_index name.new k ≢ 47 }
{
    let letters = random.map(letter);
    let n = name.len().min(6);
    let front = name.len() - n;
    name[front..].copy_from_slice(&letters[..n]);
}
