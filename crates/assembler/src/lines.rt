// The lines of a text, and whether a line's label may be kept.
ghost use Rattle.std.specs.Prelude.{◌≡◌, ℕ, IfSome, length};
ghost use Rattle.assembly_rules.specs.Text.{capitals};
ghost use Rattle.assembly_rules.specs.Assembly.{may_keep, label_stands};
ghost use Rattle.assembler_text.specs.Places.{between, labels_of};
ghost use Rattle.assembler_lines.specs.Bodies.{SpanIs, span_name};
ghost use Rattle.assembler.specs.Passes.{line_stop, line_next, LineIs};

use assembler_lines::bodies::{Body, LineRefusal, NameSpan};
use assembler_lines::{lines as saying, sizes};
use assembler_text::labels::Labels;
use assembler_text::tokens;

// A line: its label, if it has one, what stands behind it, and how many bytes it has. The place of the next is asked for by
// itself: a line that is refused is the last, and its end is not looked for.
#[derive(Clone, Copy)]
pub(crate) struct LineRead {
    pub label: Option<NameSpan>,
    pub said: Result<Body, LineRefusal>,
    pub size: usize,
}

// The place of the line feed that ends the line at a place, or the text's end.
fn line_stop(text: &[u8], at: usize) -> usize
    ensures { result ≡ line_stop text.now at }
{
    tokens::skip_while(text, at, |c| c != b'\n')
}

#[tactic(auto, unfolding(crate::specs::Passes::line_next))]
// The place of the line behind the one at a place.
pub(crate) fn line_next(text: &[u8], at: usize) -> Option<usize>
    ensures { result ≡ line_next text.now at }
{
    let stop = line_stop(text, at);
    if stop < text.len() {
        return Some(stop + 1);
    }
    None
}

// The line at a place.
pub(crate) fn line_at(text: &[u8], at: usize) -> LineRead
    ensures { LineIs text.now at result }
{
    let head = saying::head(text, at);
    let said = saying::body(text, head.body);
    LineRead {
        label: head.label,
        said,
        size: sizes::size(said),
    }
}

// Whether a name may be kept as a label beside those that are.
pub(crate) fn may_keep(text: &[u8], name: NameSpan, labels: &Labels) -> bool
    requires { SpanIs text.now name × (length labels.now.places.now ≡ length labels.now.addresses.now) }
    ensures { result ≡ may_keep (labels_of text.now labels.now) (capitals (between text.now name.from name.to)) }
{
    if 12 < name.to - name.from {
        return false;
    }
    let run = &text[name.from..name.to];
    if labels.address_of(text, run).is_some() {
        return false;
    }
    if saying::is_reserved(run) {
        return false;
    }
    labels.places.len() < 64
}

// Whether a line has no label, or one that may be kept beside those that are.
pub(crate) fn label_stands(text: &[u8], label: Option<NameSpan>, labels: &Labels) -> bool
    requires { IfSome label (SpanIs text.now) × (length labels.now.places.now ≡ length labels.now.addresses.now) }
    ensures { (address : ℕ) → result ≡ label_stands (labels_of text.now labels.now) address (span_name text.now label) }
{
    match label {
        Some(name) => may_keep(text, name, labels),
        None => true,
    }
}
