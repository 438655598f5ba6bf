// The rule that has a name, by a table in the lent work area.
ghost use Rattle.std.specs.Prelude.{◌≡◌, ◌<◌, ◌≤◌, ◌%◌, length};
ghost use Rattle.grammar.specs.Numbers.{rule_limit};
ghost use Rattle.analysis.specs.Names.{Told, Tabled, IsTarget, table_with, slots};

// Names that leave one remainder share a byte of the table.
#[derive(Drop)]
struct Table;

impl Table {
    const SLOTS: u32 = 65536;
}

// The byte of the table for a name.
fn slot(name: u32) -> usize
    ensures { (result ≡ name % slots) × (result < slots) }
{
    (name % Table::SLOTS) as usize
}

// The names of rules by place: the first n of a list, of which no two are equal.
// Stays: list and number are two fields. Of a slice of the first n the promises would tell of that slice, and those who know the
// array of a sheet's rules (`Rules`) and its n would have to turn them back.
#[derive(Clone, Copy, Debug, PartialEq, Eq)]
pub struct Names<'a> {
    pub list: &'a [u32],
    pub n: usize,
    ghost told: { Told list.now n },
}

impl Names<'_> {
    // Puts their places into the table.
    pub fn put(&self, table: &mut [u8])
        requires few { (self.now.n ≤ rule_limit) × (slots ≤ length table.old) }
        ensures table_after { table.new ≡ table_with self.now.list.now self.now.n table.old }
        ensures tabled { Tabled self.now.list.now self.now.n table.new }
    {
        for i in 0..self.n {
            table[slot(self.list[i])] = i as u8;
        }
    }

    // The rule that has a name, found by looking through the names.
    pub fn scan(&self, name: u32) -> Option<usize>
        ensures { IsTarget self.now.list.now self.now.n name result }
    {
        self.list[..self.n].iter().position(|x| *x == name)
    }

    // A byte of the table says where to look. Where another name stands there, or without a table, the names are looked through.
    #[tactic(auto, using(crate::proofs::Laws::Names::lookups))]
    pub fn look_up(&self, table: &[u8], name: u32) -> Option<usize>
        requires { Tabled self.now.list.now self.now.n table.now }
        ensures { IsTarget self.now.list.now self.now.n name result }
    {
        if table.is_empty() {
            return self.scan(name);
        }
        let i = usize::from(table[slot(name)]);
        if i < self.n && self.list[i] == name {
            return Some(i);
        }
        self.scan(name)
    }
}
