// For service people: `print AREA` prints a stored area as lines, `feed AREA` answers lines on one and stores it again. What is
// decided stands here, on slices; to be believed are `outside` here and in `files` and `stream`, where alone the system is met, and
// that the steps here go on with what the ones before gave.
#![tactic(auto)]

mod outside;

ghost use Rattle.std.specs.Prelude.{◌≡◌, ◌+◌, ◌*◌, ◌≤◌, T, length, take};
ghost use Rattle.io.specs.Counts.{IsPrefixLen};
ghost use Rattle.area.specs.Layout.{most_rows, good_bytes};
ghost use Rattle.answers.specs.Texts.{most_text};
ghost use Rattle.print.specs.Print.{least_room};
ghost use Rattle.service.specs.Names.{new_name, Named, Chosen};
ghost use Rattle.service.specs.Stored.{load_bytes, Filled, Starts};
ghost use Rattle.service.specs.PrintedOut.{handed_on, PrintedOut};
ghost use Rattle.service.specs.FedAs.{FedAs};

use area::{AREA_BYTES, MOST_ROWS};
use files::outside::{LoadError, Loaded, argument, argument_count, load, say};
use files::{LOAD_BYTES, Told, join, load_or_tell, tell, tell_bad_area, tell_refused};
use outside::{Made, MakeError, StoreError, make, remove, store};
use print::{print_open, print_row};
use std::io::{Error, Read, Write};
use stream::outside::{Sent, write_first};
use stream::{Stand, answer_input};

// The system takes names of up to 4,095 bytes, and the new file's has four more than the area's.
const MOST_NAME: usize = 4091;

// ---- what is asked for

#[derive(Clone, Copy)]
enum Asked {
    Print,
    Feed,
    BadName,
    Unknown,
}

// By the arguments: how many there are, the program's name among them, the first and the second.
fn asked_for(count: usize, word: &[u8], name: &[u8]) -> Asked
    ensures { Chosen count word.now name.now result }
{
    if count != 3 {
        return Asked::Unknown;
    }
    if name.len() < 1 {
        return Asked::BadName;
    }
    if MOST_NAME < name.len() {
        return Asked::BadName;
    }
    if word == b"print".as_slice() {
        return Asked::Print;
    }
    if word == b"feed".as_slice() {
        return Asked::Feed;
    }
    Asked::Unknown
}

// ---- names and messages

// The name of an area: 1 to 4,091 bytes.
#[derive(Clone, Copy)]
struct AreaName<'a> {
    told: Told<'a>,
    ghost named: { Named told.bytes.now },
}

// The name of an area, and that of the new file beside it, which is to take its place.
#[derive(Clone, Copy)]
struct Names<'a, 'n> {
    area: AreaName<'a>,
    new: Told<'n>,
    ghost beside: { new.bytes.now ≡ new_name area.told.bytes.now },
}

// The name of the new file.
fn new_name(name: &[u8], out: &mut [u8]) -> usize
    requires { length name.now + 4 ≤ length out.old }
    ensures { IsPrefixLen result out.new × (take result out.new ≡ new_name name.now) }
{
    join(b"", name, b".new", out)
}

fn tell_unfinished(rt: &HostRuntime, name: AreaName) {
    tell(
        &rt.stderr(),
        b"wickthrush: ",
        name.told.bytes,
        b" is as it was: reading lines or writing answers failed\n",
    );
}

// ---- print

// Why an area is not printed, or not all of it: it is a bad area; or the output did not take all of what was handed to it, so
// many bytes, and why.
#[derive(Clone, Copy)]
enum PrintError {
    BadArea,
    Cut { bytes: usize, why: Error },
}

// What one more call wrote was handed to the output, behind what was handed over before; how many bytes that is together.
fn handed_on(sent: Sent, before: usize) -> Result<usize, PrintError>
    requires { (sent.bytes ≤ least_room) × (before ≤ most_rows * least_room) }
    ensures { result ≡ handed_on sent.taken (before + sent.bytes) }
{
    let bytes = before + sent.bytes();
    match sent.taken() {
        Ok(()) => Ok(bytes),
        Err(why) => Err(PrintError::Cut { bytes, why }),
    }
}

// The O line, then row by row, each handed to the output at once, so that no line is cut where the output stops taking them;
// how many bytes that were.
fn print_area<W: Write>(output: &mut W, area: &[u8], out: &mut [u8]) -> Result<usize, PrintError>
    requires { least_room ≤ length out.old }
    ensures { PrintedOut area.now result }
{
    let Ok(n) = print_open(area, out) else {
        return Err(PrintError::BadArea);
    };
    let mut bytes = handed_on(write_first(output, n as usize, out), 0)?;
    for row in 0..MOST_ROWS {
        let Ok(n) = print_row(area, row as u64, out) else {
            return Ok(bytes);
        };
        bytes = handed_on(write_first(output, n as usize, out), bytes)?;
    }
    Ok(bytes)
}

// What was loaded, printed.
fn print_loaded(rt: &HostRuntime, name: AreaName, area: &[u8], out: &mut [u8])
    requires { least_room ≤ length out.old }
{
    match print_area(&mut rt.stdout(), area, out) {
        Ok(_) => {}
        Err(PrintError::BadArea) => tell_bad_area(&rt.stderr(), name.told),
        Err(PrintError::Cut { why, .. }) => {
            let output = Told {
                bytes: b"standard output",
            };
            tell_refused(&rt.stderr(), output, why);
        }
    }
}

fn print_stored(rt: &HostRuntime, name: AreaName) {
    let mut area = [0u8; LOAD_BYTES];
    let mut out = io::large_buffer();
    if let Some(loaded) = load_or_tell(rt, &rt.stderr(), name.told, &mut area) {
        print_loaded(rt, name, &area[..loaded.bytes()], &mut out);
    }
}

// ---- feed

// What came of the lines: all are answered, and the area is then one to be stored, or not; or they are not all answered.
#[derive(Clone, Copy)]
enum Fed {
    Good,
    Bad,
    Unfinished,
}

// The lines answered on the area. There is a new file to store it in by then, and no line or answer goes by that.
fn feed_area<R: Read, W: Write>(
    _made: &Made,
    input: &mut R,
    output: &mut W,
    area: &mut [u8],
    piece: &mut [u8],
    out: &mut [u8],
) -> Fed
    requires { Starts area.old × (1 ≤ length piece.old) × (most_text ≤ length out.old) }
    ensures { FedAs area.old result area.new piece.new }
{
    let ended = answer_input(input, output, area, piece, out);
    if ended.flow.stand != Stand::Done {
        return Fed::Unfinished;
    }
    if area::check::check(area) {
        Fed::Good
    } else {
        Fed::Bad
    }
}

// A good area stored.
fn keep(rt: &HostRuntime, mut made: Made, names: Names, area: &[u8])
    requires { T (good_bytes area.now) }
{
    match store(rt, &mut made, area, names) {
        Ok(()) => return,
        Err(StoreError::Write(why)) => tell_refused(&rt.stderr(), names.new, why),
        Err(StoreError::Rename(why)) => tell_refused(&rt.stderr(), names.area.told, why),
    }
    remove(rt, &made, names.new.bytes);
}

// The area stored, or the new file taken away again.
fn settle(rt: &HostRuntime, fed: Fed, made: Made, names: Names, area: &[u8])
    requires { fed ≡ Fed.Good → T (good_bytes area.now) }
{
    match fed {
        Fed::Good => keep(rt, made, names, area),
        Fed::Bad => {
            remove(rt, &made, names.new.bytes);
            tell_bad_area(&rt.stderr(), names.area.told);
        }
        Fed::Unfinished => {
            remove(rt, &made, names.new.bytes);
            tell_unfinished(rt, names.area);
        }
    }
}

// The lines answered, with a new file to store the area in.
fn feed_by(rt: &HostRuntime, names: Names, area: &mut [u8])
    requires { Starts area.old }
{
    let made = match make(rt, names.new.bytes) {
        Ok(made) => made,
        Err(MakeError::Refused(why)) => {
            tell_refused(&rt.stderr(), names.new, why);
            return;
        }
        Err(MakeError::StandardClosed(closed)) => {
            remove(rt, &closed, names.new.bytes);
            say(
                &rt.stderr(),
                b"wickthrush: standard input, output and error have to be open\n",
            );
            return;
        }
    };
    let mut piece = io::large_buffer();
    let mut out = io::large_buffer();
    let fed = feed_area(
        &made,
        &mut rt.stdin(),
        &mut rt.stdout(),
        area,
        &mut piece,
        &mut out,
    );
    settle(rt, fed, made, names, area);
}

// The lines answered on an area on which they may be.
fn feed_area_of(rt: &HostRuntime, name: AreaName, area: &mut [u8])
    requires { Starts area.old }
{
    let mut new = io::buffer();
    let n = new_name(name.told.bytes, &mut new);
    let new = Told { bytes: &new[..n] };
    feed_by(rt, Names { area: name, new }, area);
}

// What was loaded, fed, where it is a good area.
fn feed_loaded(rt: &HostRuntime, name: AreaName, loaded: Loaded, area: &mut [u8])
    requires { Filled loaded area.old × (length area.old ≡ load_bytes) }
{
    if area::check::check(&area[..loaded.bytes()]) {
        feed_area_of(rt, name, &mut area[..AREA_BYTES]);
    } else {
        tell_bad_area(&rt.stderr(), name.told);
    }
}

// Where there is no file of that name, lines are answered on zeros.
fn feed_stored(rt: &HostRuntime, name: AreaName) {
    let mut area = [0u8; LOAD_BYTES];
    match load(rt, name.told.bytes, &mut area) {
        Ok(loaded) => feed_loaded(rt, name, loaded, &mut area),
        Err(LoadError::Missing(_)) => feed_area_of(rt, name, &mut area[..AREA_BYTES]),
        Err(LoadError::Refused(why)) => tell_refused(&rt.stderr(), name.told, why),
    }
}

// ---- the program

// The name of an area, as it came.
fn area_name<'a>(bytes: &'a [u8]) -> AreaName<'a>
    requires { Named bytes.now }
    ensures { result.told.bytes ≡ bytes.entry }
{
    AreaName {
        told: Told { bytes },
    }
}

fn serve(rt: &HostRuntime, count: usize, word: &[u8], name: &[u8]) {
    match asked_for(count, word, name) {
        Asked::Print => print_stored(rt, area_name(name)),
        Asked::Feed => feed_stored(rt, area_name(name)),
        Asked::BadName => say(
            &rt.stderr(),
            b"wickthrush: the name of an area has 1 to 4091 bytes\n",
        ),
        Asked::Unknown => say(
            &rt.stderr(),
            b"wickthrush: usage: print AREA, or feed AREA < LINES\n",
        ),
    }
}

fn main(rt: HostRuntime) {
    let mut word = io::buffer();
    let mut name = io::buffer();
    let w = argument(&rt, 1, &mut word);
    let n = argument(&rt, 2, &mut name);
    serve(&rt, argument_count(&rt), &word[..w], &name[..n]);
}
