// Elements copied with all that is in them: ids are fresh all the way down, outer before inner (SPECIFICATION 11.5).
ghost use Rattle.std.specs.Prelude.{◌≡◌, ◌≤◌};
ghost use Rattle.copies.specs.Copy.{ElementFits, ElementCopied, ElementsFit, ElementsCopied};
ghost use Rattle.copies.specs.Copy.{AlternativeFits, AlternativeCopied, AlternativesFit, AlternativesCopied};
ghost use Rattle.words.specs.Sheet.{text};

use crate::pen::Drawing;
use planned::list::Item;
use words::numbers::{Kind, Sort};
use words::sheet::Sheet;
use words::walk::{alternative_head, element_head, leaf_end};
use words::words::word;

impl Drawing<'_> {
    // An element, made plain or not; returned is where it ends.
    // Stays: this is no visitor of the common walk (words::visit). There, what fits at a place fits at each later one (`VisitorLaws.on`),
    // so it would ask for room for all that is behind. This asks for room for the one tree (`ElementFits`), and may not ask more.
    #[cycle(tree)]
    pub fn copy_element(&mut self, s: &Sheet, depth: u32, e: Item) -> usize
        requires element_fits { ElementFits (text s.now) s.now.end depth e.plain e.at self.old.out.now self.old.trail.now self.old.pen }
        ensures same_out { self.old.out.ghost_name ≡ self.new.out.ghost_name }
        ensures same_trail { self.old.trail.ghost_name ≡ self.new.trail.ghost_name }
        ensures copied { ElementCopied (text s.now) s.now.end depth e.plain e.at self.old.out.now self.new.out.now
            self.old.trail.now self.new.trail.now self.old.pen result self.new.pen }
    {
        let head = element_head(s, depth, e.at);
        self.copy_head(s, e, head.payload);
        match head.kind {
            Kind::Block => {
                let count = word(s.bytes, head.payload);
                self.copy_count(count);
                self.copy_alternatives(s, depth - 1, count, head.payload + 1)
            }
            _ => {
                let there = leaf_end(s, depth, e.at, head);
                self.copy_leaf(s, head, there);
                there
            }
        }
    }

    // n elements from `at` on.
    #[cycle(tree)]
    fn copy_elements(&mut self, s: &Sheet, depth: u32, n: u32, at: usize) -> usize
        requires bounds { at ≤ s.now.end }
        requires elements_fit { ElementsFit (text s.now) s.now.end depth n at self.old.out.now self.old.trail.now self.old.pen }
        ensures same_out { self.old.out.ghost_name ≡ self.new.out.ghost_name }
        ensures same_trail { self.old.trail.ghost_name ≡ self.new.trail.ghost_name }
        ensures copied { ElementsCopied (text s.now) s.now.end depth n at self.old.out.now self.new.out.now
            self.old.trail.now self.new.trail.now self.old.pen result self.new.pen }
    {
        let mut p = at;
        for _ in 0..n {
            let e = Item {
                at: p,
                plain: false,
            };
            p = self.copy_element(s, depth, e);
        }
        p
    }

    // The alternative at `at`.
    #[cycle(tree)]
    fn copy_alternative(&mut self, s: &Sheet, depth: u32, at: usize) -> usize
        requires alternative_fits { AlternativeFits (text s.now) s.now.end depth at self.old.out.now self.old.trail.now self.old.pen }
        ensures same_out { self.old.out.ghost_name ≡ self.new.out.ghost_name }
        ensures same_trail { self.old.trail.ghost_name ≡ self.new.trail.ghost_name }
        ensures copied { AlternativeCopied (text s.now) s.now.end depth at self.old.out.now self.new.out.now
            self.old.trail.now self.new.trail.now self.old.pen result self.new.pen }
    {
        let head = alternative_head(s, depth, at);
        let count = head.count;
        let first = head.first;
        self.copy_marked(s, at, first, Sort::Alternative);
        self.copy_elements(s, depth, count, first)
    }

    // n alternatives from `at` on.
    #[cycle(tree)]
    fn copy_alternatives(&mut self, s: &Sheet, depth: u32, n: u32, at: usize) -> usize
        requires bounds { at ≤ s.now.end }
        requires alternatives_fit { AlternativesFit (text s.now) s.now.end depth n at self.old.out.now self.old.trail.now self.old.pen }
        ensures same_out { self.old.out.ghost_name ≡ self.new.out.ghost_name }
        ensures same_trail { self.old.trail.ghost_name ≡ self.new.trail.ghost_name }
        ensures copied { AlternativesCopied (text s.now) s.now.end depth n at self.old.out.now self.new.out.now
            self.old.trail.now self.new.trail.now self.old.pen result self.new.pen }
    {
        let mut p = at;
        for _ in 0..n {
            p = self.copy_alternative(s, depth, p);
        }
        p
    }
}
