// The program: opens a desk, reads requests from standard input to its end, prints a line for each answer, and saves the desk where that is asked for.
#![tactic(auto)]

mod answers;
mod files;
mod lines;
mod names;
mod pieces;
mod told;

ghost use Rattle.std.specs.Prelude.{◌≡◌, length, take};
ghost use Rattle.desk.specs.Counts.{IsPrefixLen};
ghost use Rattle.records.specs.House.{view};
ghost use Rattle.image.specs.Image.{image_of};
ghost use Rattle.history.specs.Lent.{lent, SamePlaces, SameParts};
ghost use Rattle.opening.specs.Desks.{opens_desk};
ghost use Rattle.desk.specs.Opened.{file_by, JustOpened};
ghost use Rattle.desk.specs.Turns.{LedTo};

use arguments::Arguments;
use history::{Desk, LentDesk};
use opening::OpenError;
use records::{Cells, Rule};
use std::env::{Env, FillError};
use std::process::ExitCode;
use told::{Told, failed, tell};

// All of the text was written; or that is told.
fn print_text(rt: &HostRuntime, text: &[u8]) -> Result<(), Told> {
    rt.write_all(text)
        .map_err(|error| failed(rt, b"desk: standard output", error))
}

// The loop only reads, has each piece answered and writes its text: what is printed, what waits and whether to go on is decided in `answer_piece`.
// No contract can say what is read and written, so the lines that do it are trusted, and tested by runs. The first read or write that fails ends it.
//
// Every proved loop ends, so this one has a number of turns, 2 ^ 50, which also keeps each ordinal within 64 bits. After that many reads (35 years, at
// a microsecond each) the program ends as it stands: the lines of all whole requests read are written, what waits is not answered, and no C2 is printed.
fn run(
    rt: &HostRuntime,
    why: bool,
    desk: &mut LentDesk,
    buf: &mut [u8],
    out: &mut [u8],
) -> Result<(), Told>
    requires just_opened { JustOpened desk.old.rule (lent desk.old) }
    requires buf_len { (length buf.old ≡ 1024) × (length out.old ≡ 139264) }
    ensures parts { SameParts desk.old desk.new }
    ensures led { LedTo desk.old.rule why (lent desk.old) (lent desk.new) }
{
    let mut ordinal = 1;
    let mut have = 0;
    for _turn in 0..1125899906842624u64 {
        let got = files::read_some(
            rt,
            &mut rt.stdin(),
            b"desk: standard input",
            &mut buf[have..],
        )?;
        let turn = pieces::answer_piece(why, desk, ordinal, buf, have, got, out);
        print_text(rt, &out[..turn.text])?;
        if !turn.onward {
            return Ok(());
        }
        ordinal = turn.ordinal;
        have = turn.have;
    }
    Ok(())
}

// The words behind the program's name, each taken in its turn: that these are the words is trusted, what they ask for is decided in `take_word`.
// One that is too long for the buffer is read as an empty word: neither is an argument or a number, and of a name only the place is kept.
fn words(rt: &HostRuntime) -> Arguments {
    let mut taken = Arguments::none();
    // Linux passes no word that is longer.
    let mut word = [0; 131072];
    for i in 1..usize::MAX {
        let n = match rt.arg(i, &mut word) {
            Ok(n) => n,
            Err(FillError::TooLong) => 0,
            Err(FillError::NotPresent) => break,
        };
        taken = taken.take_word(i, &word[..n]);
    }
    taken
}

// The image of the desk, at the front of a buffer that has room for any.
#[tactic(auto, using(image::proofs::Ways::never_refused))]
fn image_of(current: &Cells, last: u32, rule: Rule, out: &mut [u8]) -> usize
    requires { length out.old ≡ 4454 }
    ensures out_after { take result out.new ≡ image_of (view current.now) last rule }
    ensures prefix_len { IsPrefixLen result out.new }
{
    let Ok(n) = image::save(current, last, rule, out) else {
        return 0;
    };
    n
}

fn save_image(
    rt: &HostRuntime,
    word: usize,
    current: &Cells,
    last: u32,
    rule: Rule,
) -> Result<(), Told> {
    let mut image = [0u8; 4454];
    let n = image_of(current, last, rule, &mut image);
    files::write_image(rt, word, &image[..n])
}

// The input is answered, and the desk as it then stands is saved where that is asked for: also where a line could not be printed or a read failed, since
// the numbers that were given may have been seen.
fn answer(rt: &HostRuntime, why: bool, save: Option<usize>, desk: &mut LentDesk) -> Result<(), Told>
    requires { JustOpened desk.old.rule (lent desk.old) }
{
    let mut buf = [0; 1024];
    // Room for the lines of a piece of 1024 bytes: a request has one byte at least, and a line 136 at most.
    let mut out = [0; 139264];
    let answered = run(rt, why, desk, &mut buf, &mut out);
    let Some(save) = save else {
        return answered;
    };
    let saved = save_image(rt, save, desk.current, *desk.last, desk.rule);
    answered.and(saved)
}

// One line, where the rule's number is none.
fn tell_rule(rt: &HostRuntime, rule: u32, number: u8) -> Told {
    let mut line = [0; 64];
    let n = lines::rule_refused(rule, number, &mut line);
    tell(rt, &line[..n])
}

// A desk without records, with the last number already used, under the rule of that number. Where that is refused it is told, and nothing is answered.
fn serve_new(
    rt: &HostRuntime,
    why: bool,
    save: Option<usize>,
    last: u32,
    rule: u32,
    desk: &mut LentDesk,
) -> Result<(), Told> {
    match desk.open(last, rule) {
        Ok(()) => answer(rt, why, save, desk),
        Err(refusal) => Err(tell_rule(rt, rule, refusal.number())),
    }
}

fn open_file(bytes: &[u8], desk: &mut LentDesk) -> Result<(), OpenError>
    ensures places { SamePlaces desk.old desk.new }
    ensures done { opens_desk result (lent desk.new) desk.new.rule ≡ file_by (lent desk.old) bytes.now }
{
    if 65536 < bytes.len() {
        desk.rule = Rule::One;
        return Err(OpenError::NoImage);
    }
    opening::open_desk(bytes, desk)
}

// The desk of an image. What is refused is told, and nothing is answered: the numbers of the empty desk would start again.
fn serve_image(
    rt: &HostRuntime,
    why: bool,
    save: Option<usize>,
    from: usize,
    desk: &mut LentDesk,
) -> Result<(), Told> {
    // One byte more than a file may have that is tried as an image.
    let mut image = [0; 65537];
    let n = files::read_image(rt, from, &mut image)?;
    match open_file(&image[..n], desk) {
        Ok(()) => answer(rt, why, save, desk),
        Err(refusal) => Err(files::tell_refused(rt, from, refusal.number())),
    }
}

fn serve(rt: &HostRuntime) -> Result<(), Told> {
    let arguments = words(rt);
    if arguments.is_wrong() {
        return Err(tell(
            rt,
            b"desk: usage: desk [--last N | --from IMAGE] [--rule R] [--save IMAGE] [--why] <requests >lines\n",
        ));
    }
    let why = arguments.why;
    let save = arguments.save;
    let mut desk = Desk::empty();
    let mut lent = LentDesk {
        base: &mut desk.base,
        log: &mut desk.log,
        current: &mut desk.current,
        last: &mut desk.last,
        rule: desk.rule,
    };
    if let Some(from) = arguments.from {
        return serve_image(rt, why, save, from, &mut lent);
    }
    serve_new(
        rt,
        why,
        save,
        arguments.last_number(),
        arguments.rule_number(),
        &mut lent,
    )
}

// The status is 1 where standard error has a line.
fn main(rt: HostRuntime) -> ExitCode {
    match serve(&rt) {
        Ok(()) => ExitCode::SUCCESS,
        Err(Told) => ExitCode::FAILURE,
    }
}
