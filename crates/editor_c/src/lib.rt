// What the caption editor calls from C: the three functions of the crate editor, by the names and the numbers of include/desk.h.
#![tactic(auto)]

ghost use Rattle.std.specs.Prelude.{◌≡◌};
ghost use Rattle.editor.specs.Answers.{dominance_answer, join_answer, body_length_answer};

#[unsafe(no_mangle)]
pub extern "C" fn desk_dominates(a: u32, b: u32) -> u32
    ensures { result ≡ dominance_answer a b }
{
    editor::desk_dominates(a, b)
}

#[unsafe(no_mangle)]
pub extern "C" fn desk_join(a: u32, b: u32) -> u32
    ensures { result ≡ join_answer a b }
{
    editor::desk_join(a, b)
}

#[unsafe(no_mangle)]
pub extern "C" fn desk_body_length(kind: u32) -> u32
    ensures { result ≡ body_length_answer kind }
{
    editor::desk_body_length(kind)
}
