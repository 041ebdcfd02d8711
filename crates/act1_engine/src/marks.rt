ghost use Rattle.std.specs.Prelude.{◌≡◌, ◌≢◌, ℕ, ◌+◌, ◌*◌, ◌/◌, ◌^◌, ◌<◌, ◌≤◌, length, IfSome, IfNone};
ghost use Rattle.std.specs.Int.{bit_at};
ghost use Rattle.act1_engine.specs.Marking.{mark, AreMarksAt, IsFirstMarked, AreUnmarked, Adds, IsLowestBit};

/// Which modules are marked, and where in a wave they have their turns. Each bound is a bound only:
/// between them not every module needs to be marked.
#[derive(Debug, Drop)]
pub struct Marks {
    /// A bit a module, in words of 64.
    pub words: Vec<u64>,
    /// The marked modules that have their turns in this round stand below it.
    pub end: usize,
    /// Those that have theirs in the next round stand from here on.
    pub low: usize,
    /// And below this.
    pub high: usize,
}

// Marks a module.
fn set_mark(words: &mut Vec<u64>, module: usize)
    requires { «module» / 64 < length words.old.items }
    ensures long { length words.new.items ≡ length words.old.items }
    ensures here { mark words.new.items «module» ≡ 1 }
    ensures others { (k : ℕ) → k ≢ «module» → mark words.new.items k ≡ mark words.old.items k }
{
    words[module / 64] |= 1 << (module % 64);
}

/// Takes a module's mark.
pub fn clear_mark(words: &mut Vec<u64>, module: usize)
    requires { «module» / 64 < length words.old.items }
    ensures long { length words.new.items ≡ length words.old.items }
    ensures here { mark words.new.items «module» ≡ 0 }
    ensures others { (k : ℕ) → k ≢ «module» → mark words.new.items k ≡ mark words.old.items k }
{
    words[module / 64] &= !(1 << (module % 64));
}

/// Marks a module in a round that has come as far as the module `at`: from there on it has its turn
/// in this round, and before in the next.
pub fn note(marks: &mut Marks, module: usize, at: usize)
    requires room { «module» / 64 < length marks.old.words.items }
    requires few { «module» < 2 ^ 32 }
    ensures here { mark marks.new.words.items «module» ≡ 1 }
    ensures adds { (n : ℕ) → «module» < n → Adds n at marks.old marks.new }
{
    set_mark(&mut marks.words, module);
    if module >= at {
        marks.end = marks.end.max(module + 1);
    } else {
        marks.low = marks.low.min(module);
        marks.high = marks.high.max(module + 1);
    }
}

// The place of the lowest 1 in a word.
fn lowest_bit(word: u64) -> Option<usize>
    ensures none { IfNone result (word ≡ 0) }
    ensures some { IfSome result (IsLowestBit word) }
{
    if word == 0 {
        None
    } else {
        Some(word.trailing_zeros() as usize)
    }
}

// The first marked module of the word in which `from` stands, from it on.
fn first_in_word(words: &[u64], from: usize) -> Option<usize>
    requires { from / 64 < length words.now }
    ensures some { IfSome result (IsFirstMarked words.now from) }
    ensures none { IfNone result (AreUnmarked words.now from (64 * (from / 64) + 64)) }
{
    let block = from / 64;
    match lowest_bit(words[block] & (u64::MAX << (from % 64))) {
        Some(bit) => Some(64 * block + bit),
        None => None,
    }
}

// The first marked module of the words from `block` on and before `end`.
fn first_in_words(words: &[u64], block: usize, end: usize) -> Option<usize>
    requires room { end ≤ length words.now }
    requires few { end ≤ 2 ^ 58 }
    ensures some { IfSome result (IsFirstMarked words.now (64 * block)) }
    ensures none { IfNone result (AreUnmarked words.now (64 * block) (64 * end)) }
{
    for place in block..end {
        if let Some(bit) = lowest_bit(words[place]) {
            return Some(64 * place + bit);
        }
    }
    None
}

/// The first marked module from `from` on, which may stand at `end` or later; `None` where none is
/// marked before `end`. It reads a word for each 64 modules that it passes.
pub fn first_marked(words: &[u64], from: usize, end: usize) -> Option<usize>
    requires { end ≤ 64 * length words.now }
    ensures some { IfSome result (IsFirstMarked words.now from) }
    ensures none { IfNone result (AreUnmarked words.now from end) }
{
    if from >= end {
        return None;
    }
    match first_in_word(words, from) {
        Some(module) => Some(module),
        None => first_in_words(words, from / 64 + 1, (end - 1) / 64 + 1),
    }
}
