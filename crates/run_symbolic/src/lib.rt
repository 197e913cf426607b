// The symbolic machine: what the rows of a listing say that fire at an input vector and a state.
#![tactic(auto)]

ghost use Rattle.std.specs.Prelude.{◌≡◌, cond, eqb};
ghost use Rattle.rules.specs.Listing.{all_rows};
ghost use Rattle.rules.specs.Cover.{fires};
ghost use Rattle.run_symbolic.specs.Told.{told_with, told_by, untold, outputs_told};

use rules::{Head, Listing, Pattern, Row};

// What firing rows say: the next state, as a set of one or of none, and the outputs of which some of them say 1, or dash.
#[derive(Clone, Copy)]
pub struct Told {
    pub next: u64,
    pub ones: u32,
    pub dashes: u32,
}

// Whether a row fires at the input vector x and the state s.
fn is_firing(head: Head, row: Row, x: u64, s: usize) -> bool
    ensures { result ≡ fires head row x s }
{
    run_inputs::takes_input(head.inputs, row.input, x) && sets::member(row.group, s)
}

// The first of two sets that names a state.
fn first_named(next: u64, other: u64) -> u64
    ensures { result ≡ cond (eqb next 0) other next }
{
    if next == 0 { other } else { next }
}

// What is told with one row more, if it fires.
fn told_with(head: Head, x: u64, s: usize, told: Told, row: Row) -> Told
    ensures { result ≡ told_with head x s told row }
{
    if !is_firing(head, row, x, s) {
        return told;
    }
    Told {
        next: first_named(told.next, row.next),
        ones: told.ones | row.outputs.ones,
        dashes: told.dashes | row.outputs.dashes,
    }
}

// What all rows of a listing tell that fire.
pub fn told_at(t: Listing, x: u64, s: usize) -> Told
    ensures { result ≡ told_by t.head x s untold (all_rows t) }
{
    let mut told = Told {
        next: 0,
        ones: 0,
        dashes: 0,
    };
    for k in 0..write_rows::row_count(t.head, t.rows) {
        told = told_with(t.head, x, s, told, write_rows::row_of(&t, k));
    }
    told
}

// The outputs that are told, as characters: 1 goes before dash.
pub fn outputs_told(told: Told) -> Pattern
    ensures { result ≡ outputs_told told }
{
    let ones = told.ones;
    let dashes = told.dashes ^ (told.dashes & ones);
    Pattern { ones, dashes }
}
