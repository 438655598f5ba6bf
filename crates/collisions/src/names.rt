// The names around a call, as places of the sheet in the order of the names that stand there: in the work area behind the
// planned list, from its middle on to both sides, a half for each.
ghost use Rattle.std.specs.Prelude.{◌≡◌, ◌+◌, ◌*◌, ◌%◌, ◌<◌, ◌≤◌, true, false, length, get_or, MatchResult};
ghost use Rattle.grammar.specs.Numbers.{most_words, work_bytes};
ghost use Rattle.collisions.specs.Names.{entries_at, entries_end, most_entries, set_bit, low_in, high_in, count_in};
ghost use Rattle.collisions.specs.Names.{entry, has_bit, entry_name, has_name, Ordered, NamePut, Cleared};
ghost use Rattle.collisions.specs.Order.{IsAt, Joined, Nearer, Insertable, Inserted, InSet};
ghost use Rattle.words.specs.Sheet.{text};

use planned::halves::{half, move_halves, put_half};
use words::sheet::Sheet;
use words::words::word;

// A sheet, and a work area that has places of it in the order of their names.
// Stays: who puts names or walks asks for that order in a clause. A walk hands its visitor the sheet at each step, and the planned
// list, which is read between two names, stands in the same area; so this value is made where a name is looked for.
#[derive(Clone, Copy, Debug, PartialEq, Eq)]
pub struct Names<'a> {
    pub s: &'a Sheet<'a>,
    pub work: &'a [u8],
    ghost ordered: { Ordered (text s.now) s.now.end work.now },
}

impl Names<'_> {
    // The halves that say where the entries begin and where they end.
    pub const LOW: usize = 24576;

    pub const HIGH: usize = 24577;
    // The first half behind them, the end of the work area, and where the first entry comes.
    pub const FIRST: usize = 24578;

    pub const END: usize = 32768;

    pub const MIDDLE: u16 = 28672;
    // Places are below this.
    pub const PLACES: u16 = 8192;

    // The name that an entry leads to. Two bytes that are no entry may lead behind the sheet, where no name is.
    fn name_of(&self, e: [u8; 2]) -> u32
        ensures { result ≡ entry_name (text self.now.s.now) e }
    {
        let p = place(u16::from_le_bytes(e));
        if p < self.s.bytes.len() / 4 {
            word(self.s.bytes, p)
        } else {
            0
        }
    }

    // Where a name stands among the entries; or where it would stand: by halving.
    fn look(&self, name: u32) -> Result<usize, usize>
        ensures { MatchResult result (λ k. IsAt (text self.now.s.now) self.now.work.now name k true)
            (λ k. IsAt (text self.now.s.now) self.now.work.now name k false) }
    {
        let low = lowest(self.work);
        let high = low + count(self.work);
        let (entries, _) = self.work[2 * low..2 * high].as_chunks::<2>();
        entries.binary_search_by_key(&name, |e| self.name_of(*e))
    }

    // Whether a set has a name.
    pub fn has(&self, set: Set, name: u32) -> bool
        ensures { result ≡ has_name (text self.now.s.now) self.now.work.now (set_bit set) name }
    {
        match self.look(name) {
            Ok(k) => has_bit(entry_at(self.work, k), set),
            Err(_) => false,
        }
    }
}

// The two sets: the names of labels, and the names by which something is referred to.
#[derive(Clone, Copy, Debug, PartialEq, Eq)]
pub enum Set {
    Labels,
    References,
}

// What an entry has more than a place where the set has its name.
impl From<Set> for u16 {
    ghost from_gives = { λ set bit. bit ≡ set_bit set };

    fn from(set: Set) -> u16 {
        match set {
            Set::Labels => 8192,
            Set::References => 16384,
        }
    }
}

// The place of an entry.
fn place(h: u16) -> usize
    ensures { result ≡ h % most_words }
{
    usize::from(h % Names::PLACES)
}

// Whether a set has the name of an entry.
fn has_bit(h: u16, set: Set) -> bool
    ensures { result ≡ has_bit (set_bit set) h }
{
    h / u16::from(set) % 2 == 1
}

// An entry whose name a set has too.
fn joined(h: u16, set: Set) -> u16
    ensures { Joined h (set_bit set) result }
{
    if has_bit(h, set) {
        h
    } else {
        h + u16::from(set)
    }
}

// Where the entries begin, and how many they are.
fn lowest(work: &[u8]) -> usize
    requires { work_bytes ≤ length work.now }
    ensures { result ≡ low_in work.now }
{
    usize::from(half(work, Names::LOW))
}

fn count(work: &[u8]) -> usize
    requires { (work_bytes ≤ length work.now) × (low_in work.now ≤ high_in work.now) }
    ensures { result ≡ count_in work.now }
{
    usize::from(half(work, Names::HIGH)) - lowest(work)
}

// The i-th entry.
fn entry_at(work: &[u8], i: usize) -> u16
    requires { (work_bytes ≤ length work.now) × (low_in work.now + i < entries_end) }
    ensures { result ≡ entry work.now i }
{
    half(work, lowest(work) + i)
}

// One entry more behind k others, which come one half further in front; or those behind it go one further behind.
fn insert_down(work: &mut [u8], low: usize, k: usize, v: u16)
    requires { Insertable work.old k × (low ≡ low_in work.old) × (entries_at < low) }
    ensures { Inserted work.old work.new k v }
{
    move_halves(work, low, low - 1, k);
    put_half(work, low - 1 + k, v);
    put_half(work, Names::LOW, (low - 1) as u16);
}

fn insert_up(work: &mut [u8], low: usize, high: usize, k: usize, v: u16)
    requires { Insertable work.old k × (low ≡ low_in work.old) × (high ≡ high_in work.old) × (high < entries_end) }
    ensures { Inserted work.old work.new k v }
{
    let at = low + k;
    move_halves(work, at, at + 1, high - at);
    put_half(work, at, v);
    put_half(work, Names::HIGH, (high + 1) as u16);
}

// Whether the entries in front of the k-th are to be moved: they are fewer, or there is room on their side alone.
fn is_nearer(low: usize, high: usize, k: usize) -> bool
    requires { (entries_at ≤ low) × (low ≤ high) × (high ≤ entries_end) × (high < low + most_entries) × (k + low ≤ high) }
    ensures { Nearer low high result }
{
    low != Names::FIRST && (high == Names::END || k < high - low - k)
}

// One entry more, as the k-th.
fn insert(work: &mut [u8], k: usize, v: u16)
    requires { Insertable work.old k }
    ensures { Inserted work.old work.new k v }
{
    let low = lowest(work);
    let high = low + count(work);
    if is_nearer(low, high, k) {
        insert_down(work, low, k, v);
    } else {
        insert_up(work, low, high, k, v);
    }
}

// The name of the k-th entry comes into a set.
fn join(work: &mut [u8], k: usize, set: Set)
    requires { (work_bytes ≤ length work.old) × (low_in work.old + k < entries_end) }
    ensures { InSet work.old work.new k (set_bit set) }
{
    let v = joined(entry_at(work, k), set);
    put_half(work, lowest(work) + k, v);
}

// The name that stands at `at` comes into a set.
pub fn put(s: &Sheet, work: &mut [u8], set: Set, at: usize)
    requires { Ordered (text s.now) s.now.end work.old × (1 < at) × (at < s.now.end) }
    ensures { NamePut (text s.now) s.now.end work.old work.new (set_bit set)
        (get_or (text s.now) at 0) }
{
    let names = Names { s, work: &*work };
    match names.look(word(s.bytes, at)) {
        Ok(k) => join(work, k, set),
        Err(k) => insert(work, k, at as u16 + u16::from(set)),
    }
}

// Both sets are empty.
pub fn clear_both(work: &mut [u8])
    requires { work_bytes ≤ length work.old }
    ensures { Cleared work.old work.new }
{
    put_half(work, Names::LOW, Names::MIDDLE);
    put_half(work, Names::HIGH, Names::MIDDLE);
}
