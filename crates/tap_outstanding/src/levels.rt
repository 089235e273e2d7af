ghost use Rattle.std.specs.Prelude.{◌≡◌, ◌==◌, ◌^◌, ℕ, ◌+◌, ◌-◌, ◌<◌, ◌≤◌, ◌∷◌, ◌++◌, [], All};
ghost use Rattle.std.specs.Prelude.{length, sum, slice_index, slice_set, OnOk, vec_len, vec_capacity};
ghost use Rattle.tap_outstanding.specs.Levels.{HaveRoom, IsTower, count_at, sum_before, vector_lists};

use crate::memory::NoMemory;

// How many counts of a level one count of the next stands for.
const FAN: usize = 8;

// Two to this power is `FAN`.
const FAN_BITS: u32 = 3;

// How many levels of sums there are.
const HEIGHT: usize = 10;

// A place among the counts of a level, and how many more go before what is sought.
#[derive(Clone, Copy)]
struct Spot {
    at: usize,
    left: u32,
}

// A level, from 0 for the marks, and a place among its counts.
#[derive(Clone, Copy)]
struct Start {
    height: usize,
    at: usize,
}

/// The number whose mark has so many marks before it. The search begins at the number `low`, before which no mark stands.
#[inline(never)]
pub(crate) fn find(marks: &[u8], sums: &[Vec<u32>], low: usize, place: u32) -> usize
    requires tower { IsTower marks.now sums.now }
    requires inside { low ≤ length marks.now }
    requires low { sum_before marks.now low ≡ 0 }
    requires within { place < sum marks.now }
    ensures within { result < length marks.now }
    ensures mark { slice_index marks.now result ≡ 1 }
    ensures place { sum_before marks.now result ≡ place }
{
    let start = start_of(low, marks.len());
    let mut spot = Spot {
        at: start.at,
        left: place,
    };
    for height in (0..start.height).rev() {
        spot = pass(&sums[height], spot.at, spot.left);
        spot.at *= FAN;
    }
    find_mark(marks, spot.at, spot.left)
}

/// What `find` gives. The first mark mostly stands at `low`.
#[inline(always)]
pub(crate) fn find_after(marks: &[u8], sums: &[Vec<u32>], low: usize, place: u32) -> usize
    requires tower { IsTower marks.now sums.now }
    requires inside { low ≤ length marks.now }
    requires low { sum_before marks.now low ≡ 0 }
    requires within { place < sum marks.now }
    ensures within { result < length marks.now }
    ensures mark { slice_index marks.now result ≡ 1 }
    ensures place { sum_before marks.now result ≡ place }
{
    if place == 0 {
        if is_marked(marks, low) {
            return low;
        }
    }
    find(marks, sums, low, place)
}

// Where a search begins that goes from one number up to another: at the highest level of which one count stands for no more marks than
// lie between them, so that it passes eight counts there at most.
fn start_of(low: usize, end: usize) -> Start
    requires order { low ≤ end }
    ensures height { result.height ≤ 10 }
    ensures at { result.at ≡ count_at low result.height }
{
    let height = (((end - low).max(1).ilog2() / FAN_BITS) as usize).min(HEIGHT);
    Start {
        height,
        at: low >> (FAN_BITS as usize * height),
    }
}

// Steps over counts while as many are left, up to the end at most.
fn pass(counts: &[u32], from: usize, mut left: u32) -> Spot
    requires from { from ≤ length counts.now }
    ensures within { result.at ≤ length counts.now }
    ensures sum { sum_before counts.now result.at + result.left ≡ sum_before counts.now from + left }
{
    for at in from..counts.len() {
        let count = counts[at];
        if left < count {
            return Spot { at, left };
        }
        left -= count;
    }
    Spot {
        at: counts.len(),
        left,
    }
}

// The place of the mark before which so many marks are left to pass.
fn find_mark(marks: &[u8], from: usize, mut left: u32) -> usize
    requires marks { All (λ m. m ≤ 1) marks.now }
    requires from { from ≤ length marks.now }
    requires within { sum_before marks.now from + left < sum marks.now }
    ensures within { result < length marks.now }
    ensures mark { slice_index marks.now result ≡ 1 }
    ensures place { sum_before marks.now result ≡ sum_before marks.now from + left }
{
    for at in from..marks.len() {
        let mark = marks[at] as u32;
        if left < mark {
            return at;
        }
        left -= mark;
    }
    from
}

/// The first number, from this one on, that has a mark, or how many numbers there are.
pub(crate) fn next_mark(marks: &[u8], number: usize) -> usize
    requires within { number ≤ length marks.now }
    ensures within { result ≤ length marks.now }
    ensures none { sum_before marks.now result ≡ sum_before marks.now number }
{
    for at in number..marks.len() {
        if marks[at] != 0 {
            return at;
        }
    }
    marks.len()
}

/// Whether a number has a mark.
pub(crate) fn is_marked(marks: &[u8], number: usize) -> bool
    ensures { result ≡ (slice_index marks.now number == 1) }
{
    if number < marks.len() {
        marks[number] == 1
    } else {
        false
    }
}

/// How many marks stand before a number.
pub(crate) fn rank(marks: &[u8], sums: &[Vec<u32>], number: usize) -> u32
    requires tower { IsTower marks.now sums.now }
    requires within { number < length marks.now }
    ensures { result ≡ sum_before marks.now number }
{
    let mut at = number / FAN;
    let mut place = marks_between(marks, FAN * at, number);
    for counts in sums {
        place += sum_between(counts, FAN * (at / FAN), at);
        at /= FAN;
    }
    place
}

// How many marks stand from one number on, before another.
fn marks_between(marks: &[u8], from: usize, to: usize) -> u32
    requires order { from ≤ to }
    requires within { to ≤ length marks.now }
    requires fits { sum marks.now < 2 ^ 32 }
    ensures { sum_before marks.now from + result ≡ sum_before marks.now to }
{
    let mut total = 0;
    for at in from..to {
        total += marks[at] as u32;
    }
    total
}

// The sum of the counts from one place up to another.
fn sum_between(counts: &[u32], from: usize, to: usize) -> u32
    requires order { from ≤ to }
    requires within { to ≤ length counts.now }
    requires fits { sum counts.now < 2 ^ 32 }
    ensures { sum_before counts.now from + result ≡ sum_before counts.now to }
{
    let mut total = 0;
    for at in from..to {
        total += counts[at];
    }
    total
}

/// Adds the mark of the next number, and the sums of the eights that are now whole. It takes no memory.
#[inline(always)]
pub(crate) fn raise(marks: &mut Vec<u8>, sums: &mut [Vec<u32>])
    requires tower { IsTower marks.old.items sums.old }
    requires few { vec_len marks.old < 4000000000 }
    requires room { vec_len marks.old < vec_capacity marks.old }
    requires rooms { HaveRoom sums.old 1 }
    ensures tower { IsTower marks.new.items sums.new }
    ensures marks { marks.new.items ≡ marks.old.items ++ 1 ∷ [] }
    ensures len { vec_len marks.new ≡ vec_len marks.old + 1 }
    ensures capacity { vec_capacity marks.new ≡ vec_capacity marks.old }
    ensures rooms { (room : ℕ) → HaveRoom sums.old (room + 1) → HaveRoom sums.new room }
{
    marks.push_reserved(1);
    let mut end = marks.len();
    if end % FAN != 0 {
        return;
    }
    let mut sum = marks_between(marks, end - FAN, end);
    for counts in sums.iter_mut() {
        counts.push_reserved(sum);
        end = counts.len();
        if end % FAN != 0 {
            return;
        }
        sum = sum_between(counts, end - FAN, end);
    }
}

/// Takes the mark of a number away.
pub(crate) fn lower(marks: &mut Vec<u8>, sums: &mut [Vec<u32>], number: usize)
    requires tower { IsTower marks.old.items sums.old }
    requires mark { slice_index marks.old.items number ≡ 1 }
    ensures tower { IsTower marks.new.items sums.new }
    ensures marks { marks.new.items ≡ slice_set marks.old.items number 0 }
    ensures len { vec_len marks.new ≡ vec_len marks.old }
    ensures capacity { vec_capacity marks.new ≡ vec_capacity marks.old }
    ensures rooms { (room : ℕ) → HaveRoom sums.old room → HaveRoom sums.new room }
{
    marks[number] = 0;
    let mut at = number / FAN;
    for counts in sums.iter_mut() {
        if at >= counts.len() {
            return;
        }
        take_one(counts, at);
        at /= FAN;
    }
}

// One less at a place.
fn take_one(counts: &mut Vec<u32>, at: usize)
    requires within { at < vec_len counts.old }
    requires some { 1 ≤ slice_index counts.old.items at }
    ensures items { counts.new.items ≡ slice_set counts.old.items at (slice_index counts.old.items at - 1) }
    ensures len { vec_len counts.new ≡ vec_len counts.old }
    ensures capacity { vec_capacity counts.new ≡ vec_capacity counts.old }
{
    counts[at] -= 1;
}

/// Makes room in each level of sums for those of so many more numbers.
pub(crate) fn reserve(sums: &mut [Vec<u32>], more: usize) -> Result<(), NoMemory>
    ensures same { vector_lists sums.new ≡ vector_lists sums.old }
    ensures ok { OnOk result (HaveRoom sums.new more) }
    ensures room { (room : ℕ) → HaveRoom sums.old room → HaveRoom sums.new room }
{
    for counts in sums.iter_mut() {
        counts.reserve(more)?;
    }
    Ok(())
}
