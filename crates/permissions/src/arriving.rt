// The standby's half of the link, for C: a record or an image that arrives, and what is owed. The standby's four numbers are lent one by one.
ghost use Rattle.std.specs.Prelude.{◌≡◌};
ghost use Rattle.results.specs.Exports.{numbers_of, ExportedArrive, ExportedArriveImage, ExportedOwed};

use results::numbers::{arrival_number, outcome_number};
use standby::Numbers;
use standby::arriving::arrive;
use standby::loading::load;
use standby::owing::owed;

// Hands the standby's numbers back to where they were lent.
fn hand_back(numbers: Numbers, n: &mut u64, h: &mut u64, run: &mut u32, highest: &mut u32)
    ensures { numbers_of n.new h.new run.new highest.new ≡ numbers }
{
    *n = numbers.n;
    *h = numbers.h;
    *run = numbers.run;
    *highest = numbers.highest;
}

// Takes the record that the lent words are.
#[unsafe(no_mangle)]
pub extern "C" fn permissions_arrive(
    mem: &mut [u8],
    n: &mut u64,
    h: &mut u64,
    run: &mut u32,
    highest: &mut u32,
    words: &[u32],
) -> i32
    ensures { ExportedArrive mem.old words.now (numbers_of n.old h.old run.old highest.old) mem.new (numbers_of n.new h.new run.new highest.new) result }
{
    let mut numbers = Numbers {
        n: *n,
        h: *h,
        run: *run,
        highest: *highest,
    };
    let answer = arrive(mem, words, &mut numbers);
    hand_back(numbers, n, h, run, highest);
    arrival_number(answer)
}

// Takes the table, the run and the number of the image that the lent words are, unless it is a repeat.
#[unsafe(no_mangle)]
pub extern "C" fn permissions_arrive_image(
    mem: &mut [u8],
    n: &mut u64,
    h: &mut u64,
    run: &mut u32,
    highest: &mut u32,
    words: &[u32],
) -> i32
    ensures { ExportedArriveImage mem.old words.now (numbers_of n.old h.old run.old highest.old) mem.new (numbers_of n.new h.new run.new highest.new) result }
{
    let mut numbers = Numbers {
        n: *n,
        h: *h,
        run: *run,
        highest: *highest,
    };
    let answer = load(mem, words, &mut numbers);
    hand_back(numbers, n, h, run, highest);
    arrival_number(answer)
}

// How many changes are owed, to `count`.
#[unsafe(no_mangle)]
pub extern "C" fn permissions_owed(n: u64, h: u64, run: u32, highest: u32, count: &mut u64) -> i32
    ensures { ExportedOwed (numbers_of n h run highest) count.new result }
{
    let owed = owed(Numbers { n, h, run, highest });
    *count = owed.unwrap_or(0);
    outcome_number(owed)
}
