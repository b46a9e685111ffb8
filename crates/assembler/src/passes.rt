// The three passes over a text.
ghost use Rattle.std.specs.Prelude.{◌≡◌, true, IfSome, List, [], ◌++◌, ℕ, ◌+◌, ◌-◌, ◌%◌, ◌≤◌, ◌<◌, length, drop, is_some};
ghost use Rattle.ground_rules.specs.Choice.{pick};
ghost use Rattle.assembly_rules.specs.Statements.{Statement, statement_size};
ghost use Rattle.assembly_rules.proofs.PassLaws.{failed_from, bytes_from};
ghost use Rattle.assembly_rules.proofs.ByteLaws.{are_bytes};
ghost use Rattle.assembly_rules.specs.Assembly.{kept_with, labels_from, line_number};
ghost use Rattle.assembler_text.specs.Places.{labels_of};
ghost use Rattle.assembler_lines.specs.Bodies.{SpanIs, span_name, BodyIs, line_answered};
ghost use Rattle.assembler.specs.Passes.{said_from, labels_in, behind, FailureIs};

use crate::lines;
use crate::lines::LineRead;
use assembler_lines::bodies::{LineRefusal, NameSpan};
use assembler_text::labels::Labels;

// Why a line is refused, and how many lines are before it.
#[derive(Clone, Copy)]
pub(crate) struct Refused {
    pub refusal: LineRefusal,
    pub line: usize,
}

// The address behind so many bytes.
fn behind(first: u32, bytes: usize) -> u32
    ensures { result ≡ behind first bytes }
{
    (first % 65536 + (bytes % 65536) as u32) % 65536
}

// A line's label kept behind others, if it may be: how many there are then.
fn kept(
    text: &[u8],
    label: Option<NameSpan>,
    address: u32,
    places: &mut [usize],
    addresses: &mut [u32],
    count: usize,
) -> usize
    requires { (length places.old ≡ 64) × ((length addresses.old ≡ 64) × ((count ≤ 64) × IfSome label (SpanIs text.now))) }
    ensures upper_bound { result ≤ 64 }
    ensures places_len { (length places.new ≡ 64) × (length addresses.new ≡ 64) }
    ensures result_after { labels_in text.now places.new addresses.new result ≡ kept_with (labels_in text.now places.old addresses.old count) address (span_name text.now label) }
{
    let Some(name) = label else {
        return count;
    };
    let labels = Labels {
        places: &places[..count],
        addresses: &addresses[..count],
    };
    if !lines::may_keep(text, name, &labels) {
        return count;
    }
    places[count] = name.from;
    addresses[count] = address;
    count + 1
}

// The labels of a text, by the places of their names and their addresses: how many there are. Each pass asks `line_at` for line
// after line: an iterator of them would need a law beside `LineIs` and save each pass one line.
pub(crate) fn labels(text: &[u8], first: u32, places: &mut [usize], addresses: &mut [u32]) -> usize
    requires { (length places.old ≡ 64) × (length addresses.old ≡ 64) }
    ensures upper_bound { result ≤ 64 }
    ensures places_len { (length places.new ≡ 64) × (length addresses.new ≡ 64) }
    ensures result_after { labels_in text.now places.new addresses.new result ≡ labels_from [] first (said_from text.now 0) }
{
    let mut address = first % 65536;
    let mut count: usize = 0;
    let mut place = Some(0);
    while let Some(at) = place {
        let line = lines::line_at(text, at);
        count = kept(text, line.label, address, places, addresses, count);
        address = behind(address, line.size);
        place = lines::line_next(text, at);
    }
    count
}

// Why a line is refused, if it is; so many labels are kept before it, and `left` bytes of the room are left.
fn check_line(
    text: &[u8],
    line: LineRead,
    labels: &Labels,
    count: usize,
    address: u32,
    left: usize,
) -> Result<(), LineRefusal>
    requires { IfSome line.label (SpanIs text.now) × ((length labels.now.places.now ≡ length labels.now.addresses.now) × (count ≤ length labels.now.places.now)) }
    ensures { (s : Statement) → BodyIs text.now line.said s → line.size ≡ statement_size s → (before : ℕ) → line_answered result ≡ line_number (labels_of text.now labels.now) (labels_in text.now labels.now.places.now labels.now.addresses.now count) address before (before + left) (record { name = span_name text.now line.label; statement = s }) }
{
    // What the line itself shows goes before what its label does.
    line.said?;
    if !lines::label_stands(text, line.label, &labels.first(count)) {
        return Err(LineRefusal::UnknownName);
    }
    assembler_bytes::check(text, line.said, labels, address)?;
    if left < line.size {
        return Err(LineRefusal::NoRoom);
    }
    Ok(())
}

// How many labels are kept behind a line whose label stands.
fn and_its(label: Option<NameSpan>, count: usize) -> usize
    requires { count ≤ 64 }
    ensures { result ≡ pick (is_some label) (count + 1) count }
{
    match label {
        Some(_) => count + 1,
        None => count,
    }
}

// The first line that is refused, and why.
pub(crate) fn check(text: &[u8], first: u32, labels: &Labels, room: usize) -> Result<(), Refused>
    requires { (length labels.now.places.now ≡ length labels.now.addresses.now) × ((length labels.now.places.now ≤ 64) × (labels_of text.now labels.now ≡ labels_from [] first (said_from text.now 0))) }
    ensures { FailureIs result (failed_from (labels_of text.now labels.now) [] first room 1 0 (said_from text.now 0)) }
{
    let mut before: usize = 0;
    let mut count: usize = 0;
    let mut bytes: usize = 0;
    let mut place = Some(0);
    while let Some(at) = place {
        let line = lines::line_at(text, at);
        check_line(
            text,
            line,
            labels,
            count,
            behind(first, bytes),
            room - bytes,
        )
        .map_err(|refusal| Refused {
            refusal,
            line: before,
        })?;
        count = and_its(line.label, count);
        bytes += line.size;
        before += 1;
        place = lines::line_next(text, at);
    }
    Ok(())
}

// The bytes of all lines, stored: how many they are.
pub(crate) fn store(text: &[u8], first: u32, labels: &Labels, code: &mut [u8]) -> usize
    requires { (length (bytes_from (labels_of text.now labels.now) first 0 (said_from text.now 0)) ≤ length code.old) × (are_bytes (bytes_from (labels_of text.now labels.now) first 0 (said_from text.now 0)) ≡ true) }
    ensures value { result ≡ length (bytes_from (labels_of text.now labels.now) first 0 (said_from text.now 0)) }
    ensures code_after { code.new ≡ bytes_from (labels_of text.now labels.now) first 0 (said_from text.now 0) ++ drop result code.old }
{
    let mut bytes: usize = 0;
    let mut place = Some(0);
    while let Some(at) = place {
        let line = lines::line_at(text, at);
        assembler_bytes::put(
            text,
            line.said,
            labels,
            behind(first, bytes),
            &mut code[bytes..],
        );
        bytes += line.size;
        place = lines::line_next(text, at);
    }
    bytes
}
