// Whether the rule made of the planned list is directly left-recursive: each alternative is fit, one has no left corner in the
// cycle, and one begins with the hub's call (SPECIFICATION 10).
ghost use Rattle.std.specs.Prelude.{◌≡◌, ◌<◌, ◌≤◌};
ghost use Rattle.grammar.specs.Numbers.{rule_limit};
ghost use Rattle.grammar.specs.Tree.{inner_depth};
ghost use Rattle.analysis.specs.Corners.{corners_of};
ghost use Rattle.analysis.specs.Names.{Tabled};
ghost use Rattle.analysis.specs.Survey.{view_of};
ghost use Rattle.planned.specs.Layout.{settled};
ghost use Rattle.planned.specs.List.{Laid, AllIn};
ghost use Rattle.planned.specs.Shown.{meant};
ghost use Rattle.rewritable.specs.Judge.{VerdictOf, JudgedOf, JudgedFound};
ghost use Rattle.words.specs.Sheet.{text};

use crate::items::{may_be_rewritten, starts_with_call};
use crate::walk::walk_alternative;
use analysis::corners::Corners;
use analysis::known::Known;
use analysis::ruled::Ruled;
use planned::list::{Cursor, Sizes};
use planned::read::read_settled;
use planned::shown::Shown;
use reach::rows::{Row, is_empty, meet, union};
use words::sheet::Sheet;

// An alternative that is fit: whether it begins with the hub's call, or else has no left corner in the cycle; and what it calls.
#[derive(Clone, Copy, Debug, PartialEq, Eq)]
struct Verdict {
    recursive: bool,
    calls: [u64; Row::WORDS],
}

fn judge_alternative(
    a: &Shown,
    v: &Known,
    members: [u64; Row::WORDS],
    hub: usize,
) -> Option<Verdict>
    requires { hub < v.now.names.n }
    ensures { VerdictOf (view_of v.now) members hub inner_depth (meant a.now).elements result }
{
    let name = v.names.list[hub];
    if !may_be_rewritten(a, name) {
        return None;
    }
    let w = walk_alternative(a, v);
    let recursive = starts_with_call(a, name);
    let fit = if recursive {
        !w.null
    } else {
        is_empty(meet(w.corners, members))
    };
    let calls = w.calls;
    fit.then_some(Verdict { recursive, calls })
}

// If the list is directly left-recursive, the rules that it calls.
fn judge_list(
    s: &Sheet,
    v: &Known,
    members: [u64; Row::WORDS],
    hub: usize,
    work: &[u8],
    l: Sizes,
) -> Option<[u64; Row::WORDS]>
    requires bounds { hub < v.now.names.n }
    requires laid { Laid work.now l × AllIn (text s.now) s.now.end inner_depth work.now l }
    ensures { JudgedOf (view_of v.now) members hub inner_depth
        (settled (text s.now) s.now.end inner_depth work.now l) result }
{
    let mut calls = [0u64; Row::WORDS];
    let mut primary = false;
    let mut recursive = false;
    let mut c = Cursor::default();
    for _ in 0..l.out.a {
        let r = read_settled(work, l, c);
        let a = judge_alternative(&Shown { s, work, x: r.x }, v, members, hub)?;
        calls = union(calls, a.calls);
        primary |= !a.recursive;
        recursive |= a.recursive;
        c = r.next;
    }
    (primary && recursive).then_some(calls)
}

// The settled alternatives of the list, by the rules that stand in the sheet.
pub fn judge(
    g: &Ruled,
    nullable: [u64; Row::WORDS],
    reading: Corners,
    members: [u64; Row::WORDS],
    hub: usize,
    work: &[u8],
    l: Sizes,
) -> Option<[u64; Row::WORDS]>
    requires inside { hub < g.now.rules.now.n }
    requires laid { Laid work.now l × AllIn (text g.now.s.now) g.now.s.now.end inner_depth work.now l }
    ensures { JudgedFound (text g.now.s.now) g.now.s.now.end g.now.rules.now nullable (corners_of reading) members hub work.now l result }
{
    let v = Known {
        names: g.names(),
        table: &g.s.bytes[..0],
        nullable,
        reading,
    };
    judge_list(g.s, &v, members, hub, work, l)
}
