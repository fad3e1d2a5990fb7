// `holdlist` reads records from standard input into a fresh standby, and prints what it holds. Scope, "Handover, at the top". The
// definitions are in specs/.
#![tactic(auto)]

ghost use Rattle.std.specs.Prelude.{◌≡◌, length};
ghost use Rattle.input.specs.Parts.{buffer_bytes};
ghost use Rattle.holdlist.specs.Input.{HoldsInput};

use input::READS;
use input::parts::{keep_rest, read_after};
use printing::{LISTING_BYTES, write_listing};
use reading::hold_on;
use records::RECORD_WORDS;
use standby::Numbers;
use std::io;
use std::io::{Read, Write};
use table::TABLE_BYTES;
use table::acting::make_fresh;
use table::held::Table;

mod printing;
mod reading;

// One byte less than the longest record has: where no more bytes than these are left, the record there may go on in the next part of the input.
const KEPT_BYTES: usize = 4 * RECORD_WORDS - 1;

// As much as is read at once.
const BUFFER_BYTES: usize = 65_536;

// What was held of the input so far: the standby's numbers, the words taken, and whether reading stopped after them.
#[derive(Clone, Copy)]
pub struct Held {
    pub numbers: Numbers,
    pub words: usize,
    pub stopped: bool,
}

// Holds all that a reader brings, part by part.
fn hold_input<R: Read>(reader: &mut R, mem: &mut [u8], buffer: &mut [u8]) -> io::Result<Held>
    requires { length buffer.old ≡ buffer_bytes }
    ensures { HoldsInput mem.old mem.new result }
{
    let mut held = Held {
        numbers: Numbers {
            n: 0,
            h: 0,
            run: 0,
            highest: 0,
        },
        words: 0,
        stopped: false,
    };
    let mut left: usize = 0;
    for _ in 0..READS {
        if held.stopped {
            break;
        }
        let more = read_after(reader, buffer, left)?;
        if more == 0 {
            break;
        }
        let len = left + more;
        let next = hold_on(mem, held, &buffer[..len], KEPT_BYTES);
        left = keep_rest(buffer, len, 4 * (next.words - held.words));
        held = next;
    }
    Ok(hold_on(mem, held, &buffer[..left], 0))
}

fn main(rt: HostRuntime) {
    let mut mem = [0u8; TABLE_BYTES];
    let _ = make_fresh(&mut mem);
    let mut buffer = [0u8; BUFFER_BYTES];
    match hold_input(&mut rt.stdin(), &mut mem, &mut buffer) {
        Err(_) => {
            let _ = eprintln!(rt; "holdlist: standard input cannot be read");
        }
        Ok(held) => {
            let mut space = [0u8; LISTING_BYTES];
            let n = write_listing(&mut space, &Table::of(&mem), held);
            if rt.stdout().write_all(&space[..n]).is_err() {
                let _ = eprintln!(rt; "holdlist: standard output cannot be written");
            }
        }
    }
}
