// For the people at a works: `sheet AREA PERMISSION SET [NAMES]` prints the sheet for the wall from a stored area, `names` makes a
// name table from a list. What is decided stands here, on slices; to be believed are `outside` of `files` and of `stream`, where
// alone the system is met, and that the steps here go on with what the ones before gave.
#![tactic(auto)]

ghost use Rattle.std.specs.Prelude.{◌≡◌, ◌≤◌, length, take, IfSome};
ghost use Rattle.io.specs.Counts.{IsPrefixLen};
ghost use Rattle.files.specs.Loading.{Filled};
ghost use Rattle.text.specs.Field.{number_field, set_field};
ghost use Rattle.listing.specs.Listing.{most_table};
ghost use Rattle.written.specs.Result.{number_of};
ghost use Rattle.wall.specs.Asked.{Chosen};
ghost use Rattle.wall.specs.Standard.{standard_table};
ghost use Rattle.wall.specs.Shown.{if_whole, permission_in, session_in, shown_of, Shows, Refuses};

use files::outside::{Loaded, argument, argument_count, read_input, say};
use files::{LOAD_BYTES, MOST_PATH, Told, load_or_tell, tell, tell_bad_area, tell_refused};
use listing::{MOST_TABLE, make_table};
use meaning::LAST_PERMISSION;
use names::{CONTENTS_BYTES, MOST_NAME};
use roles::RoleSet;
use sheet::sheet;
use stream::outside::write_first;
use text::{Page, read_number, read_set};
use written::Refusal;

// So many bytes of a name table can be reached: a start has 16 bits, and a name 32 bytes.
const TABLE_BYTES: usize = 65535 + MOST_NAME;

// A number of 64 bits has at most so many digits.
const MOST_DIGITS: usize = 20;

// ---- what is asked for

#[derive(Clone, Copy)]
enum Asked {
    Sheet,
    SheetNamed,
    Names,
    Unknown,
}

// By the arguments: how many there are, the program's name among them, and the first.
fn asked_for(count: usize, word: &[u8]) -> Asked
    ensures { Chosen count word.now result }
{
    if word == b"names".as_slice() {
        if count == 2 {
            return Asked::Names;
        }
        return Asked::Unknown;
    }
    if word != b"sheet".as_slice() {
        return Asked::Unknown;
    }
    if count == 5 {
        return Asked::Sheet;
    }
    if count == 6 {
        return Asked::SheetNamed;
    }
    Asked::Unknown
}

// ---- the arguments of a sheet

// What was read of a text, if nothing stands behind it.
fn whole<T: Copy>(read: Option<(T, usize)>, text: &[u8]) -> Option<(T, usize)>
    ensures { result ≡ if_whole (length text.now) read }
{
    let Some((_, next)) = read else {
        return None;
    };
    if next < text.len() {
        return None;
    }
    read
}

// The permission that an argument is.
fn read_permission(text: &[u8]) -> Option<(u64, usize)>
    ensures { result ≡ number_field text.now (permission_in text.now) }
{
    whole(read_number(text, 0, LAST_PERMISSION), text)
}

// The role set that an argument is.
fn read_session(text: &[u8]) -> Option<(RoleSet, usize)>
    ensures { result ≡ set_field text.now (session_in text.now) }
{
    whole(read_set(text, 0), text)
}

// ---- the standard names

// The table of the names that the program has in it.
fn standard_table(out: &mut [u8]) -> usize
    requires { most_table ≤ length out.old }
    ensures { IsPrefixLen result out.new × (take result out.new ≡ standard_table) }
{
    make_table(
        b"0 visitor\n\
          1 operator\n\
          2 fitter\n\
          3 electrician\n\
          4 shift leader\n\
          5 laboratory\n\
          6 instrument technician\n\
          7 process engineer\n\
          8 head of works\n\
          9 storekeeper\n\
          10 driver\n\
          11 contractor\n\
          12 trainee\n\
          13 safety officer\n\
          14 auditor\n\
          15 head office\n",
        out,
    )
    .unwrap()
}

// ---- the sheet

// Why there is no sheet: an argument does not read, or it is refused.
#[derive(Clone, Copy)]
enum NoSheet {
    BadPermission,
    BadSet,
    Refused(Refusal),
}

// The sheet for the arguments: how many bytes it has.
fn show<'a>(
    area: &[u8],
    works: &'a [u8],
    standard: &'a [u8],
    permission: &[u8],
    set: &[u8],
    out: &mut [u8],
) -> Result<u32, NoSheet>
    requires { standard.now ≡ standard_table }
    ensures { Shows (shown_of area.now works.now permission.now set.now out.old) result out.new }
{
    let Some((value, _)) = read_permission(permission) else {
        return Err(NoSheet::BadPermission);
    };
    let Some((session, _)) = read_session(set) else {
        return Err(NoSheet::BadSet);
    };
    sheet(area, works, standard, value as u32, session.bits, out).map_err(NoSheet::Refused)
}

// ---- messages, each with its own words

fn tell_bad_table(rt: &HostRuntime, name: Told) {
    tell(
        &rt.stderr(),
        b"wickthrush: 17 bad name table: ",
        name.bytes,
        b"\n",
    );
}

fn tell_unreadable(rt: &HostRuntime, text: Told) {
    tell(
        &rt.stderr(),
        b"wickthrush: 9 unreadable: ",
        text.bytes,
        b"\n",
    );
}

// Why a sheet is refused. With room for it, no other refusal is left.
fn tell_refusal(rt: &HostRuntime, refusal: Refusal, area: Told, table: Told, set: Told)
    requires { Refuses (number_of refusal) }
{
    match refusal {
        Refusal::BadArea => tell_bad_area(&rt.stderr(), area),
        Refusal::BadNameTable => tell_bad_table(rt, table),
        Refusal::NoPermission => say(&rt.stderr(), b"wickthrush: 3 no permission\n"),
        _ => tell(
            &rt.stderr(),
            b"wickthrush: 4 unknown role: ",
            set.bytes,
            b"\n",
        ),
    }
}

// The first n bytes of the buffer, to standard output.
fn hand_out(rt: &HostRuntime, n: usize, out: &[u8])
    requires { n ≤ length out.now }
{
    if let Err(why) = write_first(&mut rt.stdout(), n, out).taken() {
        let output = Told {
            bytes: b"standard output",
        };
        tell_refused(&rt.stderr(), output, why);
    }
}

// ---- files

// A file: its name, and what was loaded of it.
#[derive(Clone, Copy)]
struct Stored<'n, 'b> {
    name: Told<'n>,
    bytes: &'b [u8],
}

// The file of a name; what keeps it from being loaded is told.
fn fetch(rt: &HostRuntime, name: Told, buf: &mut [u8]) -> Option<Loaded>
    ensures { IfSome result (λ loaded. Filled loaded buf.new) }
{
    if name.bytes.is_empty() {
        say(
            &rt.stderr(),
            b"wickthrush: the name of a file has 1 to 4095 bytes\n",
        );
        return None;
    }
    load_or_tell(rt, &rt.stderr(), name, buf)
}

// ---- sheet

// The sheet to standard output, or why there is none.
fn print_sheet(rt: &HostRuntime, area: Stored, works: Stored, permission: Told, set: Told) {
    let mut standard = [0u8; MOST_TABLE];
    let n = standard_table(&mut standard);
    let mut out = io::large_buffer();
    let standard = &standard[..n];
    match show(
        area.bytes,
        works.bytes,
        standard,
        permission.bytes,
        set.bytes,
        &mut out,
    ) {
        Ok(bytes) => hand_out(rt, bytes as usize, &out),
        Err(NoSheet::BadPermission) => tell_unreadable(rt, permission),
        Err(NoSheet::BadSet) => tell_unreadable(rt, set),
        Err(NoSheet::Refused(refusal)) => tell_refusal(rt, refusal, area.name, works.name, set),
    }
}

// What was loaded, with the arguments that say what is to be shown of it.
fn show_loaded(rt: &HostRuntime, area: Stored, works: Stored) {
    let mut permission = [0u8; MOST_PATH];
    let p = argument(rt, 3, &mut permission);
    let mut set = [0u8; MOST_PATH];
    let s = argument(rt, 4, &mut set);
    let permission = Told {
        bytes: &permission[..p],
    };
    let set = Told { bytes: &set[..s] };
    print_sheet(rt, area, works, permission, set);
}

// With the works' own names.
fn show_named(rt: &HostRuntime, area: Stored) {
    let mut table = [0u8; MOST_PATH];
    let t = argument(rt, 5, &mut table);
    let name = Told { bytes: &table[..t] };
    let mut works = [0u8; TABLE_BYTES];
    if let Some(loaded) = fetch(rt, name, &mut works) {
        let bytes = &works[..loaded.bytes()];
        show_loaded(rt, area, Stored { name, bytes });
    }
}

// With the works' own names, or without: then with a table of none, and the standard names show.
fn show_stored(rt: &HostRuntime, own: bool) {
    let mut name = [0u8; MOST_PATH];
    let n = argument(rt, 2, &mut name);
    let name = Told { bytes: &name[..n] };
    let mut area = [0u8; LOAD_BYTES];
    let Some(loaded) = fetch(rt, name, &mut area) else {
        return;
    };
    let bytes = &area[..loaded.bytes()];
    let area = Stored { name, bytes };
    if own {
        show_named(rt, area);
        return;
    }
    let none = Stored {
        name: Told { bytes: b"" },
        bytes: &[0u8; CONTENTS_BYTES],
    };
    show_loaded(rt, area, none);
}

// ---- names

fn tell_bad_line(rt: &HostRuntime, line: u64) {
    let mut digits = [0u8; MOST_DIGITS];
    let mut page = Page::new(&mut digits, 0);
    page.number(line);
    let n = page.at;
    tell(
        &rt.stderr(),
        b"wickthrush: 17 bad name table: line ",
        &digits[..n],
        b"\n",
    );
}

// A list that is taken has at most 2,304 bytes (`taken-short`), so of one that is longer than the buffer a line within is refused.
fn make_names(rt: &HostRuntime) {
    let mut list = io::buffer();
    let loaded = match read_input(&mut rt.stdin(), &mut list) {
        Ok(loaded) => loaded,
        Err(why) => {
            let input = Told {
                bytes: b"standard input",
            };
            tell_refused(&rt.stderr(), input, why);
            return;
        }
    };
    let mut table = [0u8; MOST_TABLE];
    match make_table(&list[..loaded.bytes()], &mut table) {
        Ok(bytes) => hand_out(rt, bytes, &table),
        Err(refused) => tell_bad_line(rt, refused.line),
    }
}

// ---- the program

fn serve(rt: &HostRuntime, count: usize, word: &[u8]) {
    match asked_for(count, word) {
        Asked::Sheet => show_stored(rt, false),
        Asked::SheetNamed => show_stored(rt, true),
        Asked::Names => make_names(rt),
        Asked::Unknown => {
            say(
                &rt.stderr(),
                b"wickthrush: usage: sheet AREA PERMISSION SET [NAMES], or names < LIST > NAMES\n",
            )
        }
    }
}

fn main(rt: HostRuntime) {
    let mut word = [0u8; MOST_PATH];
    let w = argument(&rt, 1, &mut word);
    serve(&rt, argument_count(&rt), &word[..w]);
}
