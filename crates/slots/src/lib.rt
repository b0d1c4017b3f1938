// Threads kept in lent words: loading and storing a slot (the paper's seat), and inserting a thread into a list of them.
#![tactic(auto)]

ghost use Rattle.std.specs.Prelude.{◌≡◌, ℕ, ◌++◌, map, eqb, ◌+◌, ◌*◌, ◌^◌, ◌≤◌, ◌<◌, min, length, get_or, take, drop};
ghost use Rattle.runs.specs.inner.Order.{lex, order};
ghost use Rattle.base.specs.Lists.{same_list};
ghost use Rattle.slots.specs.inner.Threads.{origin_thread, trail_of, same_words, comes_after, Extended, Computes, side_of, word_order};
ghost use Rattle.slots.specs.inner.Words.{is_set, words_of, thread_of, thread_at, put, place, FoundFrom, InsertedAt, KeptAt};

use machine_code::Configuration;
use std::cmp::Ordering;

// A configuration with its trail: the number of steps taken and, for each of them, event * 8 + step number.
#[derive(Clone, Copy)]
pub struct Thread {
    pub config: Configuration,
    pub steps: u32,
    pub trail: [u32; 32],
}

// The thread before the first step: "The start configuration holds nothing, with counters 0".
pub fn origin() -> Thread
    ensures { result ≡ origin_thread }
{
    Thread {
        config: Configuration {
            state: 0,
            held: [false; 8],
            values: [0; 8],
            counters: [0; 16],
            tallies: [0; 12],
        },
        steps: 0,
        trail: [0; 32],
    }
}

// So many words of a part, from an offset on.
fn words_at<const N: usize>(part: &[u32], at: usize) -> [u32; N]
    requires { at + N ≤ length part.now }
    ensures { result ≡ take N (drop at part.now) }
{
    let mut words = [0; N];
    words.copy_from_slice(&part[at..at + N]);
    words
}

// Which variables are held, from a word each.
fn held_in(part: &[u32]) -> [bool; 8]
    requires { 9 ≤ length part.now }
    ensures { result ≡ map is_set (take 8 (drop 1 part.now)) }
{
    words_at::<8>(part, 1).map(|word| word != 0)
}

// The thread that a half's words hold.
pub fn load(part: &[u32]) -> Thread
    requires { 78 ≤ length part.now }
    ensures { result ≡ thread_of part.now }
{
    Thread {
        config: Configuration {
            state: part[0],
            held: held_in(part),
            values: words_at(part, 9),
            counters: words_at(part, 17),
            tallies: words_at(part, 33),
        },
        steps: part[45],
        trail: words_at(part, 46),
    }
}

// Writes a thread over a half's first 78 words.
pub fn store(part: &mut [u32], t: Thread)
    requires { 78 ≤ length part.old }
    ensures { part.new ≡ words_of t ++ drop 78 part.old }
{
    part[0] = t.config.state;
    part[1..9].copy_from_slice(&t.config.held.map(u32::from));
    part[9..17].copy_from_slice(&t.config.values);
    part[17..33].copy_from_slice(&t.config.counters);
    part[33..45].copy_from_slice(&t.config.tallies);
    part[45] = t.steps;
    part[46..78].copy_from_slice(&t.trail);
}

// Where a half of a slot begins. Here alone stands the arithmetic of slots.
fn offset(slot: usize, half: usize) -> usize
    requires { (slot * 192 + 192 < 2 ^ 64) × (half < 2) }
    ensures { result ≡ place half slot }
{
    slot * 192 + half * 96
}

// The words of one half of a slot. Slot and half stay two numbers, also where their bounds are asked: callers count slots and change
// halves, and would build a struct of both anew at each call.
fn half_of(work: &[u32], slot: usize, half: usize) -> &[u32]
    requires { (slot * 192 + 192 ≤ length work.now) × (half < 2) }
    ensures words { result.now ≡ take 96 (drop (place half slot) work.now) }
    ensures long { length result.now ≡ 96 }
{
    let at = offset(slot, half);
    &work[at..at + 96]
}

// The thread of a slot in one half.
pub fn load_slot(work: &[u32], slot: usize, half: usize) -> Thread
    requires { (slot * 192 + 192 ≤ length work.now) × (half < 2) }
    ensures { result ≡ thread_at work.now (place half slot) }
{
    load(half_of(work, slot, half))
}

// The variables that a thread holds, with their values.
#[derive(Clone, Copy)]
pub struct Bound {
    pub held: [bool; 8],
    pub values: [u32; 8],
}

// The held variables of a slot's thread in one half, with their values.
pub fn bound_at(work: &[u32], slot: usize, half: usize) -> Bound
    requires { (slot * 192 + 192 ≤ length work.now) × (half < 2) }
    ensures { (result.held ≡ (thread_at work.now (place half slot)).config.held) × (result.values ≡ (thread_at work.now (place half slot)).config.values) }
{
    let part = half_of(work, slot, half);
    Bound {
        held: held_in(part),
        values: words_at(part, 9),
    }
}

// The state of a slot's thread in one half.
pub fn state_at(work: &[u32], slot: usize, half: usize) -> u32
    requires { (slot * 192 + 192 ≤ length work.now) × (half < 2) }
    ensures { result ≡ get_or work.now (place half slot) 0 }
{
    half_of(work, slot, half)[0]
}

// The number of steps of a slot's thread in one half.
pub fn steps_at(work: &[u32], slot: usize, half: usize) -> u32
    requires { (slot * 192 + 192 ≤ length work.now) × (half < 2) }
    ensures { result ≡ get_or work.now (place half slot + 45) 0 }
{
    half_of(work, slot, half)[45]
}

// Writes a thread into one half of a slot.
pub fn store_slot(work: &mut [u32], slot: usize, half: usize, t: Thread)
    requires { (slot * 192 + 192 ≤ length work.old) × (half < 2) }
    ensures { work.new ≡ put work.old (place half slot) (words_of t) }
{
    let at = offset(slot, half);
    store(&mut work[at..at + 96], t);
}

// Whether two parts hold the same words.
pub fn same_words(part: &[u32], words: &[u32]) -> bool
    requires { length words.now ≡ length part.now }
    ensures { result ≡ same_list eqb part.now words.now }
{
    part == words
}

// Whether a half's words hold a configuration's, the counters first, which tell most apart; the trail is not looked at.
fn same_at(part: &[u32], c: &Configuration) -> bool
    requires { 78 ≤ length part.now }
    ensures { result ≡ same_words (thread_of part.now).config c.now }
{
    part[0] == c.state
        && words_at(part, 17) == c.counters
        && words_at(part, 9) == c.values
        && held_in(part) == c.held
        && words_at(part, 33) == c.tallies
}

// Compares two trails by a key of each word, at the first words whose keys differ. A loop, since `Iterator::cmp` over the keys takes
// twice the instructions.
fn compared<Key: Fn(u32) -> u32>(a: &[u32], b: &[u32], key: Key) -> Ordering
    requires { (x : _) → Key.pre key x }
    ensures { (k : ℕ → ℕ) → Computes (Key.post key) k → result ≡ side_of (lex (map k a.now) (map k b.now)) }
{
    for (x, y) in a.iter().zip(b) {
        let order = key(*x).cmp(&key(*y));
        if order.is_ne() {
            return order;
        }
    }
    a.len().cmp(&b.len())
}

// Whether one trail comes after another: first by the events, then by the step numbers, compared only where the events are equal.
fn comes_after(a: &[u32], b: &[u32]) -> bool
    ensures { result ≡ comes_after (word_order a.now b.now) }
{
    let events = compared(a, b, |word| word / 8);
    events.then_with(|| compared(a, b, |word| word % 8)).is_gt()
}

// How many words of a trail count: one a step, at most 32.
pub fn capped(steps: u32) -> usize
    ensures { result ≡ min steps 32 }
{
    steps.min(32) as usize
}

// Whether a's trail comes after b's: first by the events, then by the step numbers.
pub fn later(a: Thread, b: Thread) -> bool
    ensures { result ≡ comes_after (order (trail_of a) (trail_of b)) }
{
    comes_after(&a.trail[..capped(a.steps)], &b.trail[..capped(b.steps)])
}

// Whether the trail of a half's thread comes after b's, compared where its words stand.
fn later_at(part: &[u32], b: &Thread) -> bool
    requires { 78 ≤ length part.now }
    ensures { result ≡ comes_after (order (trail_of (thread_of part.now)) (trail_of b.now)) }
{
    comes_after(
        &part[46..46 + capped(part[45])],
        &b.trail[..capped(b.steps)],
    )
}

// A thread with one step more in its trail.
pub fn with_step(mut t: Thread, event: u32, number: u32) -> Thread
    requires { (t.steps < 32) × (event < 1024) × (number < 8) }
    ensures { Extended t event number result }
{
    t.trail[t.steps as usize] = event * 8 + number;
    t.steps += 1;
    t
}

// The first of the threads from one on whose words hold a configuration's.
pub fn find_from(
    work: &[u32],
    half: usize,
    count: usize,
    from: usize,
    c: Configuration,
) -> Option<usize>
    requires { (count * 192 ≤ length work.now) × (half < 2) }
    ensures { FoundFrom half count from c work.now result }
{
    for slot in from..count {
        if same_at(half_of(work, slot, half), &c) {
            return Some(slot);
        }
    }
    None
}

// Inserts a thread into the list of one half: of it and the thread at a place of the list the lesser trail is kept; without a
// place it is appended; without room every word stays. The count of the list then, none where there is no room.
pub fn insert_at(
    work: &mut [u32],
    half: usize,
    count: usize,
    slots: usize,
    at: Option<usize>,
    b: Thread,
) -> Option<usize>
    requires { (slots * 192 ≤ length work.old) × (half < 2) × (count ≤ slots) }
    ensures { InsertedAt half count slots at b work.old work.new result }
{
    match at {
        Some(at) if at < count => {
            if later_at(half_of(work, at, half), &b) {
                store_slot(work, at, half, b);
            }
            Some(count)
        }
        _ if count < slots => {
            store_slot(work, count, half, b);
            Some(count + 1)
        }
        _ => None,
    }
}

// Keeps the thread of a slot in one half at the end of the list there, which ends before it.
pub fn keep_slot(work: &mut [u32], half: usize, count: usize, slot: usize, t: Thread)
    requires { (slot * 192 + 192 ≤ length work.old) × (half < 2) × (count ≤ slot) × (t ≡ thread_at work.old (place half slot)) }
    ensures { KeptAt half count slot t work.old work.new }
{
    if count < slot {
        store_slot(work, count, half, t);
    }
}
