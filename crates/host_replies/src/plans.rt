// What can be wanted of any bytes: the form in which they are read, the way in which the listing is coded, and the text that is written.
ghost use Rattle.std.specs.Prelude.{◌≡◌};
ghost use Rattle.host_replies.specs.Plans.{plan_of, is_kiss, is_small, width_for};

use write_texts::Text;

// What is asked for.
#[derive(Clone, Copy)]
pub enum Wanted {
    Report,
    Cover,
    Widths,
    Least,
    LeastCover,
    KissReport,
    KissCover,
    KissListing,
}

// A listing, the listing of a small machine, or a KISS2 text.
#[derive(Clone, Copy)]
pub enum Form {
    Listing,
    Small,
    Kiss,
}

// By the bit rule, in the fewest bits, or not at all.
#[derive(Clone, Copy)]
pub enum Way {
    Built,
    Least,
    Uncoded,
}

// How what is wanted is come by.
#[derive(Clone, Copy)]
pub struct Plan {
    pub form: Form,
    pub way: Way,
    pub text: Text,
}

// A plan by its three parts.
fn planned(form: Form, way: Way, text: Text) -> Plan
    ensures { result ≡ record { form = form; way = way; text = text } }
{
    Plan { form, way, text }
}

// One line for each.
pub fn plan_of(wanted: Wanted) -> Plan
    ensures { result ≡ plan_of wanted }
{
    match wanted {
        Wanted::Report => planned(Form::Listing, Way::Built, Text::Report),
        Wanted::Cover => planned(Form::Listing, Way::Built, Text::Cover),
        Wanted::Widths => planned(Form::Listing, Way::Built, Text::Widths),
        Wanted::Least => planned(Form::Small, Way::Least, Text::Report),
        Wanted::LeastCover => planned(Form::Small, Way::Least, Text::Cover),
        Wanted::KissReport => planned(Form::Kiss, Way::Built, Text::Report),
        Wanted::KissCover => planned(Form::Kiss, Way::Built, Text::Cover),
        Wanted::KissListing => planned(Form::Kiss, Way::Uncoded, Text::Listing),
    }
}

// Whether a form is KISS2.
pub fn is_kiss(form: Form) -> bool
    ensures { result ≡ is_kiss form }
{
    match form {
        Form::Kiss => true,
        Form::Listing => false,
        Form::Small => false,
    }
}

// Whether a form is that of a small machine.
pub fn is_small(form: Form) -> bool
    ensures { result ≡ is_small form }
{
    match form {
        Form::Small => true,
        Form::Listing => false,
        Form::Kiss => false,
    }
}

// The width that a listing is coded with: what each width buys is seen in the widest code, whatever the listing's own.
pub fn width_for(text: Text, width: usize) -> usize
    ensures { result ≡ width_for text width }
{
    match text {
        Text::Report => width,
        Text::Cover => width,
        Text::Widths => rules::MOST_BITS,
        Text::Listing => width,
    }
}
