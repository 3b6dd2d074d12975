//! The workbench's commands on files: what the arguments ask for (crate `asking`) is run with its buffers.
#![tactic(auto)]

mod sessions;

use failures::ROOM;
use feed::INPUT_ROOM;

fn start(rt: &HostRuntime, input: &mut [u8; INPUT_ROOM], text: &mut [u8; ROOM]) {
    let work = asking::find_work(rt, input, text);
    if work.is_asked {
        sessions::serve(rt, input, work.length, work.in_batch, text);
    }
}

fn main(rt: HostRuntime) {
    let mut input = [0u8; INPUT_ROOM];
    let mut text = [0u8; ROOM];
    start(&rt, &mut input, &mut text);
}
