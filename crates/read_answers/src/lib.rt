// The listing that says nothing, which of two verdicts comes first, and what was read when its rows have been looked at.
#![tactic(auto)]

ghost use Rattle.std.specs.Prelude.{◌≡◌};
ghost use Rattle.rules.specs.Listing.{blank, or_else, checked, judged};
ghost use Rattle.read_answers.specs.Lent.{lent};

use rules::{Head, Listing, Pattern, Refused, Requirement, Row};

// The listing that says nothing.
pub fn blank_listing() -> Listing
    ensures { result ≡ blank }
{
    let head = Head {
        states: 0,
        inputs: 0,
        outputs: 0,
        width: 0,
        keeps: false,
        moore: false,
    };
    let none = Pattern { ones: 0, dashes: 0 };
    let row = Row {
        input: none,
        group: 0,
        next: 0,
        outputs: none,
        line: 0,
    };
    let asked = Requirement {
        first: 0,
        second: 0,
    };
    let rows = [row; rules::MOST_ROWS];
    let dichotomies = [asked; rules::MOST_DICHOTOMIES];
    let said = [none; rules::MOST_STATES];
    Listing {
        head: head,
        rows: 0,
        table: rows,
        dichotomies: 0,
        asked: dichotomies,
        said: said,
        given: 0,
    }
}

// The first of two verdicts that refuses.
pub fn or_else(first: Result<(), Refused>, second: Result<(), Refused>) -> Result<(), Refused>
    ensures { result ≡ or_else first second }
{
    first?;
    second
}

// The verdict on what was read, unless two of its rows clash. Where it is refused there is no listing: it is taken away here and nowhere before, because each
// place that did would hold a listing on the stack.
pub fn settle_lent(said: Result<(), Refused>, t: &mut Listing) -> Result<(), Refused>
    ensures { (result, t.new) ≡ lent (checked (judged said t.old)) }
{
    let table = t.table;
    let clash = read_conflict::first_clash(t.rows, table);
    let verdict = or_else(said, clash);
    if verdict.is_err() {
        let none = blank_listing();
        *t = none;
    }
    verdict
}

// The same of a reading as one value.
pub fn settle(read: Result<Listing, Refused>) -> Result<Listing, Refused>
    ensures { result ≡ checked read }
{
    let t = read?;
    read_conflict::first_clash(t.rows, t.table)?;
    Ok(t)
}
