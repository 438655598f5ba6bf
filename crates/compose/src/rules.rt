// The rules that stay, and the hub among them.
ghost use Rattle.std.specs.Prelude.{◌<◌, ◌≤◌};
ghost use Rattle.grammar.specs.Tree.{inner_depth};
ghost use Rattle.planned.specs.List.{Laid, AllIn};
ghost use Rattle.drafts.specs.Draft.{Open};
ghost use Rattle.compose.specs.Hub.{NewHubFits, NewHubAdded, NewRulesFit, NewRulesAdded};
ghost use Rattle.words.specs.Sheet.{text};

use crate::body::write_hub;
use analysis::ruled::Ruled;
use copies::pen::Drawing;
use drafts::draft::Draft;
use drafts::kept::copy_rules;
use plan::plan::Plan;

// The hub with its new body.
fn add_hub(g: &Ruled, p: Plan, work: &mut [u8], trail: &mut [u8], d: &mut Draft)
    requires inside { p.hub < g.now.rules.now.n }
    requires fact { Open d.old work.old × (d.old.rules.n ≤ p.hub) }
    requires laid { Laid work.old p.l × AllIn (text g.now.s.now) g.now.s.now.end inner_depth work.old p.l }
    requires new_hub_fits { NewHubFits (text g.now.s.now) g.now.s.now.end g.now.rules.now p work.old trail.old d.old }
    ensures { NewHubAdded (text g.now.s.now) g.now.s.now.end g.now.rules.now p work.old trail.old d.old
        work.new trail.new d.new }
{
    let hub = p.hub;
    let rules = g.rules;
    let at = rules.places[hub] as usize;
    let pen = d.pen;
    let mut drawing = Drawing {
        out: work,
        trail,
        pen,
    };
    write_hub(&mut drawing, g.s, at, p.l);
    let behind = drawing.pen;
    d.add_row(rules.ids[hub], rules.names[hub], behind.to - pen.to);
    d.pen = behind;
}

pub fn compose_rules(g: &Ruled, p: Plan, work: &mut [u8], trail: &mut [u8], d: &mut Draft)
    requires inside { p.hub < g.now.rules.now.n }
    requires fact { Open d.old work.old × (d.old.rules.n ≤ 0) }
    requires laid { Laid work.old p.l × AllIn (text g.now.s.now) g.now.s.now.end inner_depth work.old p.l }
    requires new_rules_fit { NewRulesFit (text g.now.s.now) g.now.s.now.end g.now.rules.now p work.old trail.old d.old }
    ensures { NewRulesAdded (text g.now.s.now) g.now.s.now.end g.now.rules.now p work.old trail.old d.old
        work.new trail.new d.new }
{
    let hub = p.hub;
    let n = g.rules.n as usize;
    let row = p.removable;
    copy_rules(g, row, 0, hub, work, d);
    add_hub(g, p, work, trail, d);
    copy_rules(g, row, hub + 1, n, work, d);
}
