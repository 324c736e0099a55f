// What is kept of the touches of all cells: for each the last writer and up to two readers, in six words of a lent slice.
// From that, whether the next touch races with an earlier one.
#![tactic(auto, unfolding(crate::specs::Code::packed_of, crate::specs::Code::unpacked_of, crate::specs::Code::entry_of, crate::specs::Code::entry_put, crate::specs::Code::held_of, crate::specs::Code::readers_put, crate::specs::Code::held_put))]

ghost use Rattle.std.specs.Prelude.{◌≡◌, ℕ, ◌+◌, ◌*◌, ◌<◌, ◌≤◌, Bool, List, [], ◌∷◌, length, Some, None};
ghost use Rattle.lanes.specs.Grid.{Mark};
ghost use Rattle.touches.specs.Kept.{mark_of, Keeps, Rising, AnswersFor};
ghost use Rattle.touches.specs.Code.{apart_of, raced_of, reader_of, look_of, joined_of, packed_of, unpacked_of, entry_of, entry_put, first_of, second_of, readers_by, held_of, readers_put, held_put};
ghost use Rattle.touches.specs.Whole.{Layout, AllKept, Keepable, Touched};

// Who touched: the line is that of the program's text, by which a race is explained.
#[derive(Clone, Copy, Debug, PartialEq, Eq)]
pub struct Who {
    pub group: u32,
    pub lane: u32,
    pub phase: u64,
    pub line: u32,
}

// Two are of different groups if ever two groups have read, else different lanes of the latest phase.
#[derive(Clone, Copy, Debug, PartialEq, Eq)]
pub enum Readers {
    Nobody,
    One(Who),
    Two(Who, Who),
}

#[derive(Clone, Copy, Debug, PartialEq, Eq)]
pub struct Held {
    pub writer: Option<Who>,
    pub readers: Readers,
}

// An earlier touch that races.
// `wrote` is a truth value: a touch writes or it reads.
#[derive(Clone, Copy, Debug, PartialEq, Eq)]
pub struct Found {
    pub who: Who,
    pub wrote: bool,
}

fn apart(a: Who, b: Who) -> bool
    ensures { result ≡ apart_of a b }
{
    a.group != b.group || (a.phase == b.phase && a.lane != b.lane)
}

// An earlier touch by `a`, if this one races with it.
fn raced(a: Who, t: Who, wrote: bool) -> Option<Found>
    ensures { result ≡ raced_of a t wrote }
{
    apart(a, t).then_some(Found { who: a, wrote })
}

// A reader with which a write races, if there is one.
fn raced_reader(r: Readers, t: Who) -> Option<Found>
    ensures { result ≡ reader_of r t }
{
    match r {
        Readers::Nobody => None,
        Readers::One(a) => raced(a, t, false),
        Readers::Two(a, b) => raced(a, t, false).or(raced(b, t, false)),
    }
}

// An earlier touch with which this one races, if there is one. Two reads never race.
fn look(k: Held, t: Who, wrote: bool) -> Option<Found>
    ensures { result ≡ look_of k t wrote }
{
    let writer = k.writer.and_then(|a| raced(a, t, true));
    let reader = if wrote {
        raced_reader(k.readers, t)
    } else {
        None
    };
    writer.or(reader)
}

// The readers with one more. A reader of a second group takes a place for good; a later phase takes the place of an earlier one.
fn joined(r: Readers, t: Who) -> Readers
    ensures { result ≡ joined_of r t }
{
    match r {
        Readers::Nobody => Readers::One(t),
        Readers::One(a) => {
            if a.group != t.group {
                Readers::Two(a, t)
            } else if a.phase < t.phase {
                Readers::One(t)
            } else if a.lane == t.lane {
                Readers::One(a)
            } else {
                Readers::Two(a, t)
            }
        }
        Readers::Two(a, b) => {
            if a.group != b.group {
                r
            } else if a.group != t.group {
                Readers::Two(a, t)
            } else if a.phase < t.phase {
                Readers::One(t)
            } else {
                r
            }
        }
    }
}

fn packed(a: Who) -> u64
    ensures { result ≡ packed_of a }
{
    1 + (a.line as u64 * 1024 + a.lane as u64) * 1024 + a.group as u64
}

fn unpacked(phase: u64, word: u64) -> Option<Who>
    ensures { result ≡ unpacked_of phase word }
{
    let p = word.checked_sub(1)?;
    let group = (p % 1024) as u32;
    let lane = (p / 1024 % 1024) as u32;
    let line = (p / 1048576 % 4294967296) as u32;
    Some(Who {
        group,
        lane,
        phase,
        line,
    })
}

fn entry_at(kept: &[u64], j: usize) -> Option<Who>
    requires { 2 * j + 1 < length kept.now }
    ensures { result ≡ entry_of kept.now j }
{
    unpacked(kept[2 * j], kept[2 * j + 1])
}

fn put_entry(kept: &mut [u64], j: usize, who: Option<Who>)
    requires { 2 * j + 1 < length kept.old }
    ensures { kept.new ≡ entry_put kept.old j who }
{
    let (phase, word) = who.map_or((0, 0), |a| (a.phase, packed(a)));
    kept[2 * j] = phase;
    kept[2 * j + 1] = word;
}

fn readers_from(a: Option<Who>, b: Option<Who>) -> Readers
    ensures { result ≡ readers_by a b }
{
    match (a, b) {
        (Some(a), Some(b)) => Readers::Two(a, b),
        (Some(a), None) => Readers::One(a),
        (None, _) => Readers::Nobody,
    }
}

fn first(r: Readers) -> Option<Who>
    ensures { result ≡ first_of r }
{
    match r {
        Readers::Nobody => None,
        Readers::One(a) | Readers::Two(a, _) => Some(a),
    }
}

fn second(r: Readers) -> Option<Who>
    ensures { result ≡ second_of r }
{
    match r {
        Readers::Nobody | Readers::One(_) => None,
        Readers::Two(_, b) => Some(b),
    }
}

fn held_at(kept: &[u64], i: usize) -> Held
    requires { 6 * i + 5 < length kept.now }
    ensures { result ≡ held_of kept.now i }
{
    let writer = entry_at(kept, 3 * i);
    let a = entry_at(kept, 3 * i + 1);
    let b = entry_at(kept, 3 * i + 2);
    Held {
        writer,
        readers: readers_from(a, b),
    }
}

fn put_readers(kept: &mut [u64], i: usize, r: Readers)
    requires { 6 * i + 5 < length kept.old }
    ensures { kept.new ≡ readers_put kept.old i r }
{
    put_entry(kept, 3 * i + 1, first(r));
    put_entry(kept, 3 * i + 2, second(r));
}

fn keep(kept: &mut [u64], i: usize, k: Held, t: Who, wrote: bool)
    requires { 6 * i + 5 < length kept.old }
    ensures { kept.new ≡ held_put kept.old i k t wrote }
{
    if wrote {
        put_entry(kept, 3 * i, Some(t));
    } else {
        put_readers(kept, i, joined(k.readers, t));
    }
}

// A touch of the cell whose words are at spot i: an earlier touch with which it races; or there is none, and it is kept.
pub fn touch(kept: &mut [u64], i: usize, who: Who, wrote: bool) -> Option<Found>
    ensures exact { (y : Layout) (w c : ℕ) (ms : List Mark) → Keepable y w c i who kept.old → AllKept y ms kept.old → Rising ms (mark_of w c who wrote) → Touched y w c ms kept.old kept.new who wrote result }
    ensures outside { length kept.old ≤ 6 * i + 5 → (result ≡ None) × (kept.new ≡ kept.old) }
{
    if i >= kept.len() / 6 {
        return None;
    }
    let held = held_at(kept, i);
    let found = look(held, who, wrote);
    if found.is_none() {
        keep(kept, i, held, who, wrote);
    }
    found
}

// No touch is kept, whatever the words were.
pub fn clear(words: &mut [u64])
    ensures { (y : Layout) → AllKept y [] words.new }
{
    words.fill(0);
}
