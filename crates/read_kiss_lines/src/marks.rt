// The mark that leads a line: its whole first field, compared with six fixed strings.
ghost use Rattle.std.specs.Prelude.{◌≡◌};
ghost use Rattle.rules.specs.Text.{mark_of};
ghost use Rattle.rules.specs.KissLines.{kiss_mark};

use rules::KissMark;

// Which mark a field is; one that none of the six is, but begins with a dot, is unknown, and any other leads a row.
#[tactic(auto, using(read_names::proofs::Same::unlike), unfolding(rules::specs::KissLines::kiss_mark, rules::specs::KissLines::dotted))]
fn mark_in(f: &[u8]) -> KissMark
    ensures { result ≡ kiss_mark f.now }
{
    match f {
        b".i" => KissMark::Inputs,
        b".o" => KissMark::Outputs,
        b".s" => KissMark::States,
        b".p" => KissMark::Products,
        b".r" => KissMark::Reset,
        b".e" => KissMark::End,
        [b'.', ..] => KissMark::Unknown,
        _ => KissMark::Row,
    }
}

// The mark that leads a line.
#[tactic(auto, unfolding(rules::specs::Text::mark_of))]
pub fn mark_of(l: &[u8]) -> KissMark
    ensures { result ≡ kiss_mark (mark_of l.now) }
{
    mark_in(read_pieces::field(l, 0))
}
