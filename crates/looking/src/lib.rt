//! What stands at a path, by asking the system: lstat of the name, and of where a symbolic link leads.
#![tactic(auto)]

ghost use Rattle.std.specs.Prelude.{◌≡◌, ◌≤◌, ◌<◌, length, pos};
ghost use Rattle.looking.specs.Reason.{reason_of};

use standing::{Seen, Stands};
use std::fs::OpenOptions;
use std::io;
use std::io::ErrorKind;
use std::rt::Files;

/// What an error of std's says, as errno's number; an error of the device where it says none.
pub fn reason(number: Option<i32>) -> u32
    ensures value { pos result ≡ reason_of number }
    ensures within { result < 2147483648 }
{
    let error = paths::errno(number);
    if error <= 0 {
        return 5;
    }
    error as u32
}

// What lstat or stat tells.
fn seen_by(told: Result<u32, i32>) -> Seen {
    match told {
        Ok(mode) => Ok(Some(mode)),
        Err(error) => standing::failed_by(reason(Some(error))),
    }
}

// What lstat tells of the name at `path`.
fn see(rt: &HostRuntime, path: &[u8]) -> Seen {
    seen_by(modes::own_mode(rt, path))
}

// How many bytes of `path` stand before what its link says: its folder, or nothing where that starts at the root.
fn folder_before(path: &[u8], link: &[u8]) -> usize
    ensures { result ≤ length path.now }
{
    if link.starts_with(b"/") {
        return 0;
    }
    paths::last_part(path)
}

// The path to which the link at `path` leads, made in `target`: its length, 4,096 where it has no room.
fn put_led(path: &[u8], link: &[u8], target: &mut [u8; 4096]) -> usize
    requires { length link.now ≤ 4096 }
    ensures { result ≤ 4096 }
{
    let folder = folder_before(path, link);
    if 4096 < folder {
        return 4096;
    }
    if 4096 < folder + link.len() {
        return 4096;
    }
    let from = text::put_bytes(target, 0, &path[..folder]);
    text::put_bytes(target, from, link)
}

// What stands where the link of these bytes leads.
fn see_behind(rt: &HostRuntime, path: &[u8], link: &[u8], target: &mut [u8; 4096]) -> Seen {
    if 4096 < link.len() {
        return Err(36);
    }
    let n = put_led(path, link, target);
    let all: &[u8] = target;
    see(rt, &all[..n])
}

// What stands where the name at `path` leads, whose link std does not give: itself where it is no link; a link that is no UTF-8 is
// followed.
fn see_unread(rt: &HostRuntime, path: &[u8], error: io::Error) -> Seen {
    if error.raw_os_error().is_some() {
        return see(rt, path);
    }
    match error.kind() {
        ErrorKind::OutOfMemory => Err(12),
        _ => seen_by(modes::led_mode(rt, path)),
    }
}

// What stands where the name at `path` leads, which is a link; itself where it is none.
fn see_led(rt: &HostRuntime, path: &[u8]) -> Seen {
    match paths::text_of(path) {
        Err(error) => standing::failed_by(reason(Some(error))),
        Ok(text) => match rt.read_link(rt.alloc(), text) {
            Err(error) => see_unread(rt, path, error),
            Ok(link) => {
                let mut target = [0u8; 4096];
                see_behind(rt, path, link.as_str().as_bytes(), &mut target)
            }
        },
    }
}

// Whether the leave to write counts: only of an ordinary file, at the name or where it leads. No error has the number 0.
fn is_leave_asked(own: Seen, led: Seen) -> bool {
    standing::standing_of(own, led, Err(0)) == Err(0)
}

// Whether the file that the name leads to may be written: it is opened to be written behind its end, and nothing is. A file that is
// being run may be, though it cannot be opened so.
fn see_leave(rt: &HostRuntime, path: &[u8]) -> Result<(), u32> {
    let text = match paths::text_of(path) {
        Ok(text) => text,
        Err(error) => return Err(reason(Some(error))),
    };
    let mut options = OpenOptions::new();
    options.append(true);
    match rt.open_file(&options, text) {
        Ok(_) => Ok(()),
        Err(error) => match error.kind() {
            ErrorKind::ExecutableFileBusy => Ok(()),
            _ => Err(reason(error.raw_os_error())),
        },
    }
}

/// What stands at the path. Nothing but an ordinary file is opened: to open a pipe would wait for its other end.
pub fn look(rt: &HostRuntime, path: &[u8]) -> Result<Stands, u32> {
    let own = see(rt, path);
    let led = see_led(rt, path);
    let mut leave = Ok(());
    if is_leave_asked(own, led) {
        leave = see_leave(rt, path);
    }
    standing::standing_of(own, led, leave)
}
