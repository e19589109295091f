// What the programs for people share: files read, arguments, and messages about them. To be believed is `outside`, where alone
// the system is met.
#![tactic(auto)]

pub mod outside;

ghost use Rattle.std.specs.Prelude.{◌+◌, ◌≤◌, length, IfSome};
ghost use Rattle.files.specs.Messages.{message_room, Joined, Tellable};
ghost use Rattle.files.specs.Loading.{Filled};

use area::AREA_BYTES;
use outside::{Loaded, load, say, say_why};
use std::io::Error;
use std::rt::Files;
use text::Page;

// The system takes names of so many bytes at most.
pub const MOST_PATH: usize = 4095;

// One byte more than an area has, so that a longer file is seen.
pub const LOAD_BYTES: usize = AREA_BYTES + 1;

// What messages tell of: a name, or another argument, no longer than a name that the system takes, so that there is room for it.
#[derive(Clone, Copy)]
pub struct Told<'a> {
    pub bytes: &'a [u8],
    pub ghost tellable: { Tellable bytes.now },
}

// A name between two texts, at the start of the buffer.
pub fn join(before: &[u8], name: &[u8], behind: &[u8], out: &mut [u8]) -> usize
    requires { length before.now + length name.now + length behind.now ≤ length out.old }
    ensures { Joined before.now name.now behind.now result out.new }
{
    let mut page = Page::new(out, 0);
    page.push_bytes(before);
    page.push_bytes(name);
    page.push_bytes(behind);
    page.at
}

// A name between two texts, to standard error. It asks for room for these three, since a `Told` would ask for more beside long texts.
pub fn tell<P: Print>(errors: &P, before: &[u8], name: &[u8], behind: &[u8])
    requires { length before.now + length name.now + length behind.now ≤ message_room }
{
    let mut out = io::large_buffer();
    let n = join(before, name, behind, &mut out);
    say(errors, &out[..n]);
}

// What the system refused, by its name, and why.
pub fn tell_refused<P: Print>(errors: &P, name: Told, why: Error) {
    let mut out = io::large_buffer();
    let n = join(b"wickthrush: ", name.bytes, b"", &mut out);
    say_why(errors, &out[..n], why);
}

pub fn tell_bad_area<P: Print>(errors: &P, name: Told) {
    tell(errors, b"wickthrush: 1 bad area: ", name.bytes, b"\n");
}

// The file of a name, as far as the buffer takes it; what keeps it from being loaded is told.
pub fn load_or_tell<R: Files, P: Print>(
    files: &R,
    errors: &P,
    name: Told,
    buf: &mut [u8],
) -> Option<Loaded>
    ensures { IfSome result (λ loaded. Filled loaded buf.new) }
{
    match load(files, name.bytes, buf) {
        Ok(loaded) => Some(loaded),
        Err(error) => {
            tell_refused(errors, name, error.why());
            None
        }
    }
}
