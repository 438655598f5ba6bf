// Sets of rules: a row has a bit for each of 128 rules, in two words of 64 bits.
ghost use Rattle.std.specs.Prelude.{ℕ, ◌≡◌, ◌∷◌, [], ◌<◌, ◌≤◌};
ghost use Rattle.grammar.specs.Numbers.{rule_limit};
ghost use Rattle.reach.specs.Rows.{bit, One, With, Without, Union, Meet, Minus, AddIf, Collected, Empty};

// Stays: rows are arrays by value and the functions over them are free ones, since SPECIFICATION 17.1 fixes reachability over
// `[[u64; 2]; 128]` by value, of which the first n are those of a sheet's n rules; `Row` has no more than their sizes. That a place is
// below 128 is a clause, as it is of std's index, and so is that n is at most 128. n is a field of a sheet's rules: a type for it would
// be made of that field wherever it is handed on, by the same fact, and be opened again wherever it is counted up to.
#[derive(Drop)]
pub struct Row;

impl Row {
    // As many as a sheet may have.
    pub const RULES: usize = 128;

    pub const WORDS: usize = 2;
    // Of a word.
    pub const BITS: usize = 64;
}

// No index is computed, so that a row can stay out of memory.
pub fn has(row: [u64; Row::WORDS], j: usize) -> bool
    requires { j < rule_limit }
    ensures { result ≡ bit row j }
{
    if j < Row::BITS {
        return (row[0] >> j) % 2 == 1;
    }
    (row[1] >> (j - Row::BITS)) % 2 == 1
}

// One rule alone.
pub fn one(j: usize) -> [u64; Row::WORDS]
    requires { j < rule_limit }
    ensures { One j result }
{
    if j < Row::BITS {
        return [1 << j, 0];
    }
    [0, 1 << (j - Row::BITS)]
}

pub fn union(a: [u64; Row::WORDS], b: [u64; Row::WORDS]) -> [u64; Row::WORDS]
    ensures { Union a b result }
{
    [a[0] | b[0], a[1] | b[1]]
}

pub fn meet(a: [u64; Row::WORDS], b: [u64; Row::WORDS]) -> [u64; Row::WORDS]
    ensures { Meet a b result }
{
    [a[0] & b[0], a[1] & b[1]]
}

// What is in the first and not in the second.
pub fn minus(a: [u64; Row::WORDS], b: [u64; Row::WORDS]) -> [u64; Row::WORDS]
    ensures { Minus a b result }
{
    [a[0] ^ (a[0] & b[0]), a[1] ^ (a[1] & b[1])]
}

// One rule more.
pub fn with(row: [u64; Row::WORDS], j: usize) -> [u64; Row::WORDS]
    requires { j < rule_limit }
    ensures { With row j result }
{
    union(row, one(j))
}

// One rule less.
pub fn without(row: [u64; Row::WORDS], j: usize) -> [u64; Row::WORDS]
    requires { j < rule_limit }
    ensures { Without row j result }
{
    minus(row, one(j))
}

// One rule more, if it is to be.
pub fn add_if(row: [u64; Row::WORDS], j: usize, on: bool) -> [u64; Row::WORDS]
    requires { j < rule_limit }
    ensures { AddIf row j on result }
{
    if on {
        return with(row, j);
    }
    row
}

// The rules below n that pass a test.
pub fn collect<F: Fn(usize) -> bool>(n: usize, test: F) -> [u64; Row::WORDS]
    requires bounds { n ≤ rule_limit }
    requires test { (i : ℕ) → i < n → F.pre test i }
    ensures { Collected (F.post test) n result }
{
    let mut r = [0; Row::WORDS];
    for i in 0..n {
        let t = add_if(r, i, test(i));
        r = t;
    }
    r
}

pub fn is_empty(row: [u64; Row::WORDS]) -> bool
    ensures { Empty row result }
{
    row[0] | row[1] == 0
}
