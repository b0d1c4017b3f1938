// The lists of a thread, read back from its trail: a slot holds no list, but what a trail's steps gathered follows from the log and the formula.
#![tactic(auto)]

ghost use Rattle.std.specs.Prelude.{◌≡◌, ◌<◌, min, length, take, replicate};
ghost use Rattle.lists.specs.inner.Words.{add_in, gather_in, gather_step, entry_in, target_in, read_back, new_in, FreshIs};

use machine_code::marks::width;
use machine_code::steps::step_offset;

// Adds a value to list v: value i of list v stands at v * 32 + i, the number of its values at 128 + v. A full list stays. The four
// lists stay one array of words with their lengths at its end: `threads` compares the lists of two threads as one part.
fn add(lists: &mut [u32; 132], v: usize, x: u32)
    ensures { lists.new ≡ add_in lists.old v x }
{
    if v < 4 && lists[128 + v] < 32 {
        let n = lists[128 + v];
        lists[v * 32 + n as usize] = x;
        lists[128 + v] = n + 1;
    }
}

// What the clause at a place gathers on an event with these values.
fn gather(lists: &mut [u32; 132], f: &[u8], at: usize, values: &[u32])
    requires { at < length f.now }
    ensures { lists.new ≡ gather_in f.now values.now at lists.old }
{
    let operand = base::byte_at(f, at + 2);
    if f[at] == 0x17 && 8 <= operand {
        let x = base::get_or(values, base::byte_at(f, at + 1) as usize, 0);
        add(lists, (operand - 8) as usize, x);
    }
}

// What the STEP at an offset gathers on an event with these values.
fn gather_step(lists: &mut [u32; 132], f: &[u8], at: usize, values: &[u32])
    requires { at < length f.now }
    ensures { lists.new ≡ gather_step f.now values.now at lists.old }
{
    let mut place = at + 2;
    while place < f.len() {
        let taken = width(u32::from(f[place]));
        if taken == 0 {
            return;
        }
        gather(lists, f, place, values);
        place += taken;
    }
}

// What the step at an offset gathered on the event with a number; at 0 there is no step.
fn gather_entry(
    lists: &mut [u32; 132],
    l: &[u8],
    places: &[usize],
    fields: usize,
    f: &[u8],
    at: usize,
    event: usize,
)
    ensures { lists.new ≡ entry_in l.now places.now fields f.now at event lists.old }
{
    if at != 0 && at < f.len() {
        let loaded = event_log_code::event_at(l, fields, base::get_or(places, event, 0));
        gather_step(lists, f, at, &loaded.event.values);
    }
}

// The state that the step at an offset leads to; where there is none, the state before it.
fn state_after(f: &[u8], at: usize, state: u32) -> u32
    ensures { result ≡ target_in f.now at state }
{
    if at != 0 && at < f.len() {
        base::byte_at(f, at + 1)
    } else {
        state
    }
}

// The lists gathered along a trail of so many steps: four lists of at most 32 values. A word of the trail is event * 8 + step number.
pub fn lists_of(
    l: &[u8],
    places: &[usize],
    fields: usize,
    f: &[u8],
    table: &[usize],
    trail: [u32; 32],
    steps: usize,
) -> [u32; 132]
    ensures { result ≡ read_back l.now places.now fields f.now table.now 0 (replicate 132 0) (take (min steps 32) trail) }
{
    let mut lists = [0; 132];
    let mut state = 0;
    for word in &trail[..steps.min(32)] {
        let at = step_offset(table, state, (word % 8) as usize);
        gather_entry(&mut lists, l, places, fields, f, at, (word / 8) as usize);
        state = state_after(f, at, state);
    }
    lists
}

// Whether no value of list v is x; a value past the words is 0.
fn is_new(lists: &[u32; 132], v: usize, x: u32) -> bool
    requires { v < 4 }
    ensures { result ≡ new_in lists.now v x }
{
    let first = v * 32;
    for i in first..first + lists[128 + v] as usize {
        if base::get_or(lists, i, 0) == x {
            return false;
        }
    }
    true
}

// For each list and each of 8 fields, at v * 8 + f: whether no value of list v is the field's.
pub fn fresh_of(lists: [u32; 132], values: [u32; 8]) -> [bool; 32]
    ensures { FreshIs lists values result }
{
    let mut fresh = [true; 32];
    for i in 0..32 {
        fresh[i] = is_new(&lists, i / 8, values[i % 8]);
    }
    fresh
}
