// What is known of the rules of a sheet while cycles are decided on.
use crate::ground::Ground;
use analysis::corners::Corners;
use analysis::rounds::Rows;
use analysis::ruled::Ruled;

// The sheet with its rules, the reading of left corners, the rows of the rules, and what else is found out about them.
// Stays: that these are the facts of the rules is a clause (`RulesKnown`, `JoinedKnown`, `CycleKnown`, `HubKnown`) and no ghost field.
// The clause has the preserved ids as a list, of which one row allows several, and a ghost field may have one proof at most. With all
// but the list in a ghost field each of the four would still stand, since each says of the cycle at hand what its step rests on.
#[derive(Clone, Copy, Debug, PartialEq, Eq)]
pub struct Facts<'a> {
    pub g: &'a Ruled<'a>,
    pub reading: Corners,
    pub rows: &'a Rows,
    pub ground: Ground,
}
