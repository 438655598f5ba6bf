// The forms that a sheet has had.
ghost use Rattle.std.specs.Prelude.{◌≡◌, ◌≤◌};
ghost use Rattle.grammar.specs.Form.{call_words};
ghost use Rattle.words.specs.Form.{form_of};

// What a form has a place for: a third word of each call, its precedence.
// Stays: a form is the set of places that it has, and no enum of forms. Each place is there or not by itself, and what depends on
// one asks for that one alone; with an enum each of those would go through all forms.
#[derive(Clone, Copy, Debug, PartialEq, Eq)]
pub struct Form {
    pub precedences: bool,
}

impl Form {
    pub const FIRST: Form = Form { precedences: false };

    // The form of every sheet that is handed in or out today.
    pub const NEWEST: Form = Form { precedences: true };

    // How many words a call's payload has.
    pub fn call_words(self) -> usize
        ensures number { result ≡ call_words (form_of self) }
        ensures few { (2 ≤ result) × (result ≤ 3) }
    {
        if self.precedences { 3 } else { 2 }
    }
}
