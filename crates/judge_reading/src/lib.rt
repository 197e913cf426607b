// The reader of a cover from elsewhere, whole or a piece at a time: its verdict, and its rows in the tables of where rows fire and what they say.
#![tactic(auto)]

ghost use Rattle.std.specs.Prelude.{◌≡◌};
ghost use Rattle.rules.specs.Text.{lines_of};
ghost use Rattle.rules.specs.CheckTexts.{no_heads, is_over, cover_end, cover_reading};
ghost use Rattle.judge_reading.specs.Tables.{row_laid, tables_from};
ghost use Rattle.judge_reading.specs.Pieces.{at_line, line_reached, line_tables, whole_tables, piece_from, closed_by};

use judge_search::{FIRES_WORDS, LISTING_ROWS, SAYS_WORDS};
use read_pieces::cut;
use rules::{CodeTable, CoverHeads, CoverPart, Refusal, Refused};

// The lines of the longest good cover: `.i`, `.o`, `.type fd`, `.p`, 256 rows and `.e`.
const MOST_COVER_LINES: usize = 261;

// What a cover is read for: so many inputs of the listing; the inputs and the outputs that the cover has to have; the codes of so many states.
#[derive(Clone, Copy)]
pub struct Reader {
    pub inputs: usize,
    pub taken: usize,
    pub given: usize,
    pub states: usize,
    pub codes: CodeTable,
}

// A place in a cover: the number of the line to come, and what the lines before it said.
#[derive(Clone, Copy)]
pub struct Place {
    pub line: usize,
    pub heads: CoverHeads,
}

// What the whole lines of a piece come to, a place or the refusal of a line, and how many of its bytes they are.
#[derive(Clone, Copy)]
pub struct Piece {
    pub reached: Result<Place, Refused>,
    pub taken: usize,
}

// Before the first line.
pub fn start() -> Result<Place, Refused>
    ensures { result ≡ at_line 1 no_heads }
{
    let heads = CoverHeads {
        part: CoverPart::Inputs,
        inputs: 0,
        outputs: 0,
        products: 0,
        rows: 0,
    };
    Ok(Place { line: 1, heads })
}

// The line between the heads h and g in the tables, where it is a row of a cover that fits.
fn put_row(
    q: Reader,
    h: CoverHeads,
    g: CoverHeads,
    l: &[u8],
    fires: &mut [u64; FIRES_WORDS],
    says: &mut [u64; SAYS_WORDS],
)
    ensures { (fires.new, says.new) ≡ row_laid q h g l.now (fires.old, says.old) }
{
    if g.rows <= h.rows {
        return;
    }
    if rules::MOST_CHECKED <= h.rows {
        return;
    }
    if h.inputs != q.taken {
        return;
    }
    if h.outputs != q.given {
        return;
    }
    let codes = q.codes;
    judge_rows::put_line(
        l,
        LISTING_ROWS + h.rows,
        q.inputs,
        q.states,
        codes,
        fires,
        says,
    );
}

// Whether the end line has come.
#[tactic(auto, unfolding(rules::specs::CheckTexts::is_over))]
fn is_over(part: CoverPart) -> bool
    ensures { result ≡ is_over part }
{
    matches!(part, CoverPart::Over)
}

// What stands behind the last LF, as line k.
fn end_of(q: Reader, k: usize, h: CoverHeads, l: &[u8]) -> Result<(), Refused>
    ensures { result ≡ cover_end q.taken q.given k h l.now }
{
    if l.len() != 0 {
        return Err(Refusal::BadLine.at(k));
    }
    let part = h.part;
    if !is_over(part) {
        return Err(Refusal::BadLine.at(k));
    }
    judge_cover::fit_of(q.taken, q.given, h)
}

// A line, from a place in a cover on, with its row in the tables: the place behind it.
fn read_line(
    q: Reader,
    from: Result<Place, Refused>,
    l: &[u8],
    fires: &mut [u64; FIRES_WORDS],
    says: &mut [u64; SAYS_WORDS],
) -> Result<Place, Refused>
    ensures place { result ≡ line_reached from l.now }
    ensures tables { (fires.new, says.new) ≡ line_tables q from l.now (fires.old, says.old) }
{
    let at = from?;
    let got = judge_cover::line_said(at.heads, l);
    match got {
        Err(r) => Err(r.at(at.line)),
        Ok(heads) => {
            put_row(q, at.heads, heads, l, fires, says);
            let line = sets::least(at.line, MOST_COVER_LINES) + 1;
            Ok(Place { line, heads })
        }
    }
}

// The whole lines of a piece, from a place in a cover on. The rows that were read before a refusal stay in the tables.
pub fn read_piece(
    q: Reader,
    from: Result<Place, Refused>,
    piece: &[u8],
    fires: &mut [u64; FIRES_WORDS],
    says: &mut [u64; SAYS_WORDS],
) -> Piece
    ensures piece { result ≡ piece_from from piece.now }
    ensures tables { (fires.new, says.new) ≡ whole_tables q from (lines_of piece.now) (fires.old, says.old) }
{
    let mut reached = from;
    let mut at: usize = 0;
    let mut end = cut(piece, 0, b'\n');
    while end < piece.len() {
        reached = read_line(q, reached, &piece[at..end], fires, says);
        at = end + 1;
        end = cut(piece, at, b'\n');
    }
    Piece { reached, taken: at }
}

// The verdict at the end of a cover, from a place in it and what stands behind its last LF.
pub fn close(q: Reader, reached: Result<Place, Refused>, rest: &[u8]) -> Result<(), Refused>
    ensures { result ≡ closed_by q reached rest.now }
{
    match reached {
        Err(why) => Err(why),
        Ok(at) => end_of(q, at.line, at.heads, rest),
    }
}

// The verdict on a whole cover, and its rows.
pub fn read_cover(
    q: Reader,
    text: &[u8],
    fires: &mut [u64; FIRES_WORDS],
    says: &mut [u64; SAYS_WORDS],
) -> Result<(), Refused>
    ensures verdict { result ≡ cover_reading q.taken q.given (lines_of text.now) }
    ensures tables { (fires.new, says.new) ≡ tables_from q no_heads (lines_of text.now) (fires.old, says.old) }
{
    let got = read_piece(q, start(), text, fires, says);
    let at = got.taken;
    let reached = got.reached;
    close(q, reached, &text[at..])
}
